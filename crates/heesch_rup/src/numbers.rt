//! Which hints are numbers of clauses.
ghost use Rattle.std.specs.Prelude.{All, IsTrue, ◌↔◌};
ghost use Rattle.heesch_rup.specs.Hints.{IsNumberUpTo};

fn is_number(count: usize, number: u32) -> bool
    ensures { IsTrue result ↔ IsNumberUpTo count number }
{
    let number = number as usize;
    1 <= number && number <= count
}

/// Whether the hints are numbers, from 1, of so many clauses.
pub fn are_numbers(count: usize, hints: &[u32]) -> bool
    ensures { IsTrue result ↔ All (IsNumberUpTo count) hints.now }
{
    hints.iter().all(|hint| is_number(count, *hint))
}
