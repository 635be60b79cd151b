//! The runtime as a value that is copied.
use std::alloc::AllocError;
use std::thread::Threads;

/// The runtime behind a reference. A job of the pool that holds the runtime holds it so: its `Job` gets no proof while
/// it holds a reference to a type that isn't `Copy`.
pub struct SharedHandle<'a, T> {
    pub rt: &'a T,
}

impl<'a, T> Copy for SharedHandle<'a, T> {}

impl<'a, T> Clone for SharedHandle<'a, T> {
    fn clone(&self) -> Result<Self, AllocError> {
        Ok(*self)
    }
}

impl<'a, T: Threads> Threads for SharedHandle<'a, T> {}
