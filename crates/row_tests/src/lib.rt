//! What a store of rows leaves on a disk in memory: its bytes, and what crashes and faults make of them; and a folder as a disk.
#![tactic(auto)]

#[cfg(test)]
mod batches;
#[cfg(test)]
mod disks;
#[cfg(test)]
mod files;
#[cfg(test)]
mod folders;
#[cfg(test)]
mod journals;
#[cfg(test)]
mod tests;
