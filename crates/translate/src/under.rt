ghost use Rattle.std.specs.Prelude.{◌≡◌, true};
ghost use Rattle.sysregs.specs.Registers.{InRange, config_of, set_of};
ghost use Rattle.table_reads.specs.Numbers.{is_sized1, is_sized2};
ghost use Rattle.walk_spec.specs.Fresh.{start_base1, start_base2};
ghost use Rattle.translate.specs.Checked.{IsStart1, IsStart2};

use crate::start::{Start, start1, start2};
use std::marker::Model;
use sysregs::fields::config;
use sysregs::{Config, Reg, Regs, Side};

/// The registers in force with their fields and with what they decide of each stage, all of which is read once for each
/// change.
#[derive(Drop)]
pub struct InForce {
    regs: Regs,
    config: Config,
    low: Start,
    high: Start,
    stage2: Start,
}

impl Model for InForce {
    ghost use Rattle.sysregs.specs.declared.regs.Regs.{Regs};
    ghost use Rattle.sysregs.specs.declared.regs.Side.TheVariants.{Low, High};
    ghost use Rattle.translate.specs.Checked.{AreChecked, IsStart1, IsStart2};

    ghost Value = { Regs };

    ghost view = { λ f. f.regs };

    ghost invariant = { λ f. AreChecked f.config f.regs × IsStart1 f.regs Low f.low × IsStart1 f.regs High f.high × IsStart2 f.regs f.stage2 };
}

impl InForce {
    /// These registers with what is read off them.
    pub fn of(regs: Regs) -> InForce
        ensures { result ≡ regs }
    {
        let config = config(&regs);
        InForce {
            low: start1(&regs, &config, Side::Low),
            high: start1(&regs, &config, Side::High),
            stage2: start2(&regs, &config),
            config,
            regs,
        }
    }

    /// Changes one register.
    pub fn set(&mut self, reg: Reg, value: u64)
        ensures { self.new ≡ set_of self.old reg value }
    {
        let mut regs = self.regs;
        regs.set(reg, value);
        *self = InForce::of(regs);
    }

    pub fn regs(&self) -> &Regs
        ensures { result.now ≡ self.now }
    {
        &self.regs
    }

    pub fn config(&self) -> &Config
        ensures same { result.now ≡ config_of self.now }
        ensures range { InRange result.now }
    {
        &self.config
    }

    /// The base of the start table of stage 1 for a side, in bytes, where its sizes are in range.
    pub fn base1(&self, side: Side) -> u64
        ensures { is_sized1 (config_of self.now) side ≡ true → result ≡ start_base1 self.now side }
    {
        self.start1(side).base
    }

    /// The base of the start table of stage 2, in bytes, where its sizes are in range.
    pub fn base2(&self) -> u64
        ensures { is_sized2 (config_of self.now) ≡ true → result ≡ start_base2 self.now }
    {
        self.start2().base
    }

    /// What they decide of stage 1 for a side.
    pub(crate) fn start1(&self, side: Side) -> &Start
        ensures { IsStart1 self.now side result.now }
    {
        match side {
            Side::Low => &self.low,
            Side::High => &self.high,
        }
    }

    /// What they decide of stage 2.
    pub(crate) fn start2(&self) -> &Start
        ensures { IsStart2 self.now result.now }
    {
        &self.stage2
    }
}

/// The registers that an access is translated under, with the moment of the items.
#[derive(Drop)]
pub(crate) struct Under<'a> {
    force: &'a InForce,
    moment: u32,
}

impl<'a> Model for Under<'a> {
    ghost use Rattle.translate.specs.Checked.{RegsAt};

    ghost Value = { RegsAt };

    ghost view = { λ u. record { regs = u.force.now; moment = u.moment } };
}

impl<'a> Under<'a> {
    pub fn of(force: &'a InForce, moment: u32) -> Under<'a>
        ensures { result ≡ record { regs = force.now; moment = moment } }
    {
        Under { force, moment }
    }

    pub fn regs(&self) -> &Regs
        ensures { result.now ≡ self.now.regs }
    {
        self.force.regs()
    }

    pub fn config(&self) -> &Config
        ensures same { result.now ≡ config_of self.now.regs }
        ensures range { InRange result.now }
    {
        self.force.config()
    }

    /// What the registers decide of stage 1 for a side.
    pub fn start1(&self, side: Side) -> &Start
        ensures { IsStart1 self.now.regs side result.now }
    {
        self.force.start1(side)
    }

    /// What the registers decide of stage 2.
    pub fn start2(&self) -> &Start
        ensures { IsStart2 self.now.regs result.now }
    {
        self.force.start2()
    }

    pub fn moment(&self) -> u32
        ensures { result ≡ self.now.moment }
    {
        self.moment
    }
}
