//! A machine of cores with caches of translations, as definitions: what a trace's run is, and which steps are allowed.
#![tactic(auto)]
