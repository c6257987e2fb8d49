//! Tests of bytes in and out, and of threads that take turns.
#![tactic(auto)]

#[cfg(test)]
mod broken;
#[cfg(test)]
mod edge;
#[cfg(test)]
mod turns;
