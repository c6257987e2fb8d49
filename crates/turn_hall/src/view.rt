//! What the slot of a hall has, and what a seat knows.
use std::collections::LinkedList;

/// The slot: the value, or none while it is out.
pub type Place<T> = Option<T>;

/// What a seat does. No value of it is made.
pub enum Stage<T> {
    Idle,
    /// The value is out with it, and was so as it was taken out.
    Out(T),
}

/// What a seat knows. No value of it is made.
pub struct View<T, E, Q> {
    pub stage: Stage<T>,
    /// The list that it has seen.
    pub seen: LinkedList<E>,
    /// The numbers that it holds, each with its part.
    pub held: LinkedList<(u64, Q)>,
    /// Two lists that two seats had seen as they were joined.
    pub told: LinkedList<E>,
    pub heard: LinkedList<E>,
}
