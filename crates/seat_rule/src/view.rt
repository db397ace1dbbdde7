use std::collections::LinkedList;

/// A step of a partition, as seats know it. No value of it is made.
pub struct Noted<T> {
    /// Greater than those of all steps that the caller had seen.
    pub stamp: u128,
    /// The caller's number.
    pub by: u64,
    /// How many steps of each partition the caller had seen, by the partition's word.
    pub cites: LinkedList<u64>,
    /// What the step did.
    pub told: T,
}

/// What a seat has seen and may do. No value of it is made.
pub struct Past<T> {
    /// What was seen of each trace, by the partition's word, the oldest step first.
    pub lists: LinkedList<LinkedList<Noted<T>>>,
    /// The callers' numbers that the seat holds: its steps bear one of them.
    pub numbers: LinkedList<u64>,
    /// The words whose traces the seat writes; with the last word it draws numbers.
    pub writes: LinkedList<u64>,
}

/// What a seat knows. No value of it is made.
pub struct View<T> {
    pub past: Past<T>,
    /// How many numbers were drawn, where the seat draws them.
    pub drawn: u64,
    /// What the seat itself had before it was last put together with another.
    pub was: Past<T>,
    /// What the other had.
    pub met: Past<T>,
}
