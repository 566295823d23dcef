ghost use Rattle.std.specs.Prelude.{◌≡◌, ◌≤◌, ℤ, pos, negsuc, ◌≤ℤ◌};
ghost use Rattle.fault_codes.specs.Status.{status_of, by_level, HasStatus};

/// A stage of translation.
#[derive(Clone, Copy, Debug, Default, PartialEq, Eq)]
pub enum Stage {
    #[default]
    S1,
    S2,
}

/// What kind of fault it is. External is an external abort on a walk.
#[derive(Clone, Copy, Debug, PartialEq, Eq)]
pub enum Class {
    Translation,
    AddressSize,
    AccessFlag,
    Permission,
    External,
    Conflict,
}

/// A fault at a level from -1 to 3. `s1ptw` marks a stage 2 fault for the place of a stage 1 descriptor.
#[derive(Clone, Copy, Debug, PartialEq, Eq)]
pub struct Fault {
    pub stage: Stage,
    pub level: i8,
    pub class: Class,
    pub s1ptw: bool,
}

/// A class's code at a level: `first` is that of level 0, and `below` that of level -1.
fn code(level: i8, first: u8, below: u8) -> u8
    requires level { level ≤ℤ pos 3 }
    requires first { first ≤ 0x14 }
    ensures { result ≡ by_level level first below }
{
    if level < 0 {
        below
    } else {
        first + level as u8
    }
}

/// The fault status code (DDI 0487, the fault status codes of `ESR_ELx`).
pub fn fsc(fault: &Fault) -> u8
    requires { HasStatus fault.now }
    ensures { result ≡ status_of fault.now }
{
    match fault.class {
        Class::AddressSize => code(fault.level, 0x00, 0x29),
        Class::Translation => code(fault.level, 0x04, 0x2b),
        Class::AccessFlag => code(fault.level, 0x08, 0x08),
        Class::Permission => code(fault.level, 0x0c, 0x0c),
        Class::External => code(fault.level, 0x14, 0x13),
        Class::Conflict => 0x30,
    }
}
