//! Tests of metadata locks.
#![tactic(auto)]

#[cfg(test)]
mod locks;
