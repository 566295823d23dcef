//! Tests of the libraries below the walks: words and fields, registers, rights, descriptors, trails, one table, texts, memory.
#![tactic(auto)]

#[cfg(test)]
mod of_attributes;
#[cfg(test)]
mod of_bitwords;
#[cfg(test)]
mod of_descriptors;
#[cfg(test)]
mod of_fault_codes;
#[cfg(test)]
mod of_geometry;
#[cfg(test)]
mod of_permissions;
#[cfg(test)]
mod of_phys_mem;
#[cfg(test)]
mod of_sysregs;
#[cfg(test)]
mod of_table_reads;
#[cfg(test)]
mod of_texts;
#[cfg(test)]
mod of_trails;
