//! Tests of whole runs: scripts with what they print, faults of the source and the sink, words and statuses; and of how often
//! decisions begin.
#![tactic(auto)]

#[cfg(test)]
mod beginnings;
#[cfg(test)]
mod catalogs;
#[cfg(test)]
mod runs;
