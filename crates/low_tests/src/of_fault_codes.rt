ghost use Rattle.fault_codes.specs.Status.{HasLevel};

use fault_codes::{Class, Fault, Stage, fsc};

fn status(class: Class, level: i8) -> u8
    requires { HasLevel class level }
{
    fsc(&Fault {
        stage: Stage::S1,
        level,
        class,
        s1ptw: false,
    })
}

#[test]
fn status_codes(rt: HostRuntime) {
    for (class, first, last) in [
        (Class::AddressSize, 0x00, 0x03),
        (Class::Translation, 0x04, 0x07),
        (Class::AccessFlag, 0x08, 0x0b),
        (Class::Permission, 0x0c, 0x0f),
        (Class::External, 0x14, 0x17),
        (Class::Conflict, 0x30, 0x30),
    ] {
        assert!(rt; (status(class, 0), status(class, 3)) == (first, last));
    }
    for (found, want) in [
        (status(Class::AddressSize, -1), 0x29),
        (status(Class::Translation, -1), 0x2b),
        (status(Class::External, -1), 0x13),
        (status(Class::Conflict, -1), 0x30),
    ] {
        assert!(rt; found == want);
    }
}
