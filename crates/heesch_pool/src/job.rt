//! Work for each number below a count.
ghost use Rattle.std.specs.Prelude.{◌≡◌, ◌<◌, ℕ, Bool, Result, IsTrue};
ghost use Rattle.heesch_io.specs.declared.NoMemory.{NoMemory as Refusal};

use heesch_io::NoMemory;
use std::marker::PhantomData;

/// What answers numbers, as a closure would. A struct can keep a fact about such a value, and can't keep one about a
/// closure that is a type parameter.
pub trait Answer<T> {
    // The numbers that may be asked. It is a test and no fact, since a ghost field's fact has one proof at most.
    ghost accepts: { Self → ℕ → Bool };

    // What may be answered on a number.
    ghost gives: { Self → ℕ → Result T Refusal → Type 0 };

    // What else has to hold of it wherever it is asked. It may be a fact that no test decides, such as that threads
    // may share what it borrows.
    ghost ready: { Self → Type 0 };

    /// The answer on a number that it accepts, where it is ready, or want of memory.
    fn answer(&self, number: u32) -> Result<T, NoMemory>
        requires number { IsTrue (accepts self.now number) }
        requires ready { ready self.now }
        ensures { gives self.now number result };
}

/// Work to be done for each number below a count. It keeps the fact that its work accepts each of them.
#[derive(Drop)]
pub struct Job<T, W: Answer<T>> {
    pub work: W,
    pub count: u32,
    item: PhantomData<T>,
    ghost callable: { (i : ℕ) → i < count → IsTrue (W.accepts work i) },
}

impl<T, W: Answer<T>> Job<T, W> {
    /// The job of these numbers. It takes no memory.
    pub fn new(work: W, count: u32) -> Job<T, W>
        requires { (i : ℕ) → i < count → IsTrue (W.accepts work i) }
        ensures { (result.work ≡ work) × (result.count ≡ count) }
    {
        Job {
            work,
            count,
            item: PhantomData,
        }
    }
}
