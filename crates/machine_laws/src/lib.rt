//! Laws of the machine's definitions: every step of every run is allowed. Each law stands on a function that does nothing.
#![tactic(auto)]

mod headline;
mod leaving;
mod not_allowed;
mod promise;
mod rules;

pub use headline::{runs_are_allowed, runs_without_rows_are_fresh, unchanged_trails_are_fresh};
pub use leaving::{lru_loses_the_longest_unused, rows_leave_for_a_cause};
pub use not_allowed::{nothing_false_is_allowed, wrong_answers_are_refused};
pub use promise::runs_keep_their_promise;
pub use rules::{
    barrier_empties_inboxes, full_sets_lose_one, no_row_outlives_its_vmid,
    no_rows_made_changes_none, nothing_covered_changes_nothing, quiet_events_keep_rows,
    rows_serve_their_own,
};
