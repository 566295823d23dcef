//! Tests of dumps, of the top call, and of files of the system.
#![tactic(auto)]

#[cfg(test)]
mod calls;
#[cfg(test)]
mod dumps;
#[cfg(test)]
mod lines;
#[cfg(test)]
mod made;
#[cfg(test)]
mod reals;
