//! Tests of the walks: through stage 2, through stage 1, and through both.
#![tactic(auto)]

#[cfg(test)]
mod of_stage1_walk;
#[cfg(test)]
mod of_stage2_walk;
#[cfg(test)]
mod of_translate;
