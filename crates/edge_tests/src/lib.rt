//! Tests of what stands at the edge of the program: register files, printed lines and their sinks, the command line.
#![tactic(auto)]

#[cfg(test)]
mod of_commands;
#[cfg(test)]
mod of_explain_text;
#[cfg(test)]
mod of_reg_file;
