//! What a worker passes before it answers a number.

/// A gate that each number passes before it is answered, so that a test can hold one back.
pub trait Gate {
    /// Is told the worker, counted from 0, and the number that it claimed. It returns, and answers nothing.
    fn pass(&self, worker: u32, ticket: u32);
}

/// The gate that holds nothing back.
#[derive(Clone, Copy)]
pub struct Open;

impl Gate for Open {
    fn pass(&self, _worker: u32, _ticket: u32) {}
}
