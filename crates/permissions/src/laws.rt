//! Laws of what the stages permit. Each is a contract of a function that does nothing.
ghost use Rattle.permissions.specs.Laws.{TablesOnlyTake, FetchBitsOnlyTake, FetchesComeOfWrites, NoFetchOfWritable, NoFetchOfUserWritable};
ghost use Rattle.permissions.specs.Laws.{El1Reads, FetchNeedsRead, PanSparesEl0, PanSparesFetches, EpanNeedsPan, BothIsIntersection};

/// Further bits of tables give no right to read or write.
#[tactic(auto, using(crate::proofs::LawProofs::tables_take))]
pub fn tables_only_take()
    ensures { TablesOnlyTake }
{}

/// PXNTable and UXNTable give no right at all.
#[tactic(auto, using(crate::proofs::LawProofs::fetch_bits_take))]
pub fn fetch_bits_only_take()
    ensures { FetchBitsOnlyTake }
{}

/// APTable gives a right to fetch only where it takes a right to write, which had stood against it.
#[tactic(auto, using(crate::proofs::LawProofs::fetches_come))]
pub fn fetches_come_of_writes()
    ensures { FetchesComeOfWrites }
{}

/// With WXN no exception level fetches what it may write.
#[tactic(auto, using(crate::proofs::LawProofs::writable))]
pub fn no_fetch_of_writable()
    ensures { NoFetchOfWritable }
{}

/// What EL0 may write, EL1 may not fetch.
#[tactic(auto, using(crate::proofs::LawProofs::user_writable))]
pub fn no_fetch_of_user_writable()
    ensures { NoFetchOfUserWritable }
{}

/// Stage 1 lets EL1 read all that it maps, as long as PAN is 0.
#[tactic(auto, using(crate::proofs::LawProofs::reads))]
pub fn el1_reads()
    ensures { El1Reads }
{}

/// At stage 2 a fetch needs read.
#[tactic(auto, using(crate::proofs::LawProofs::fetch_reads))]
pub fn fetch_needs_read()
    ensures { FetchNeedsRead }
{}

/// PAN and EPAN bear on no access at EL0.
#[tactic(auto, using(crate::proofs::LawProofs::spares_el0))]
pub fn pan_spares_el0()
    ensures { PanSparesEl0 }
{}

/// PAN and EPAN bear on no fetch.
#[tactic(auto, using(crate::proofs::LawProofs::spares_fetches))]
pub fn pan_spares_fetches()
    ensures { PanSparesFetches }
{}

/// EPAN bears on no access while PAN is 0.
#[tactic(auto, using(crate::proofs::LawProofs::epan_needs))]
pub fn epan_needs_pan()
    ensures { EpanNeedsPan }
{}

/// The rights of both stages are those that each of them gives.
#[tactic(auto, using(crate::proofs::LawProofs::intersection))]
pub fn both_is_intersection()
    ensures { BothIsIntersection }
{}
