ghost use Rattle.std.specs.Prelude.{◌≡◌};
ghost use Rattle.sysregs.specs.Sides.{side_of, by_side, txsz_of, tg_of, epd_of, tbi_of, tbid_of, e0pd_of, hpd_of};

use crate::regs::{Config, Side, Tg};
use bitwords::flag;

/// The side that VA bit 55 names.
pub fn side(va: u64) -> Side
    ensures { result ≡ side_of va }
{
    if flag::<55>(va) {
        Side::High
    } else {
        Side::Low
    }
}

/// The one of two values that is of the side.
fn by_side<T: Copy>(side: Side, low: T, high: T) -> T
    ensures { result ≡ by_side side low high }
{
    match side {
        Side::Low => low,
        Side::High => high,
    }
}

impl Config {
    /// T0SZ or T1SZ.
    pub fn txsz(&self, side: Side) -> u32
        ensures { result ≡ txsz_of self.now side }
    {
        by_side(side, self.t0sz, self.t1sz)
    }

    /// TG0 or TG1.
    pub fn tg(&self, side: Side) -> Tg
        ensures { result ≡ tg_of self.now side }
    {
        by_side(side, self.tg0, self.tg1)
    }

    /// EPD0 or EPD1.
    pub fn epd(&self, side: Side) -> bool
        ensures { result ≡ epd_of self.now side }
    {
        by_side(side, self.epd0, self.epd1)
    }

    /// TBI0 or TBI1.
    pub fn tbi(&self, side: Side) -> bool
        ensures { result ≡ tbi_of self.now side }
    {
        by_side(side, self.tbi0, self.tbi1)
    }

    /// TBID0 or TBID1.
    pub fn tbid(&self, side: Side) -> bool
        ensures { result ≡ tbid_of self.now side }
    {
        by_side(side, self.tbid0, self.tbid1)
    }

    /// E0PD0 or E0PD1.
    pub fn e0pd(&self, side: Side) -> bool
        ensures { result ≡ e0pd_of self.now side }
    {
        by_side(side, self.e0pd0, self.e0pd1)
    }

    /// HPD0 or HPD1.
    pub fn hpd(&self, side: Side) -> bool
        ensures { result ≡ hpd_of self.now side }
    {
        by_side(side, self.hpd0, self.hpd1)
    }
}
