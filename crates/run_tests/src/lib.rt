//! Tests of runs: invalidations, the trace language, rows in caches, a core, the machine, and the report of a run.
#![tactic(auto)]

#[cfg(test)]
mod of_cpu_model;
#[cfg(test)]
mod of_machine;
#[cfg(test)]
mod of_report_text;
#[cfg(test)]
mod of_tagged_tlb;
#[cfg(test)]
mod of_tlbi_ops;
#[cfg(test)]
mod of_trace_lang;
#[cfg(test)]
mod of_walk_cache;
