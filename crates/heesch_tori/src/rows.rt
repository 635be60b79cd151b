//! For each variable a row of words, with a bit for each cell that it has.
ghost use Rattle.std.specs.Prelude.{◌≡◌, ◌<◌, ◌≤◌, ◌+◌, ◌-◌, ◌*◌, ◌^◌, ◌∷◌, [], ◌↔◌, length, map, All, IsTrue, IfOk};
ghost use Rattle.heesch_encode.specs.Marks.{Marking};
ghost use Rattle.heesch_torus.specs.Covering.{AreNumbers};
ghost use Rattle.heesch_tori.specs.Rows.{bit_number, HaveCommonBit, AreRows};

use heesch_io::{NoMemory, Seq};
use std::alloc::Global;

/// Sets the bit of this number.
fn set_bit(words: &mut [u64], number: usize)
    requires { number < 64 * length words.old }
    ensures { Marking words.old words.new (number ∷ []) }
{
    words[number / 64] |= 1 << (number % 64);
}

/// Sets the bit of a cell in the rows of these variables.
fn mark_cell(words: &mut [u64], width: usize, cell: usize, variables: &[u32])
    requires cell { cell < 64 * width }
    requires few { length words.old ≤ 2 ^ 32 }
    requires variables { All (λ v. (1 ≤ v) × (v * width ≤ length words.old)) variables.now }
    ensures { Marking words.old words.new (map (λ v. bit_number width (v - 1) cell) variables.now) }
{
    for var in variables {
        let row = (*var as usize - 1) * width;
        set_bit(words, 64 * row + cell);
    }
}

/// The rows of so many variables, of so many words each, where the lists tell for each cell which of them have it.
pub(crate) fn rows_of(
    alloc: Global,
    lists: &[Seq<u32>],
    count: usize,
    width: usize,
) -> Result<Vec<u64>, NoMemory>
    requires few { count ≤ 4608 }
    requires narrow { width ≤ 1000 }
    requires wide { length lists.now ≤ 64 * width }
    requires numbers { All (AreNumbers count) lists.now }
    ensures { IfOk result (λ words. AreRows count lists.now width words.items) }
{
    let mut words = vec![in alloc; 0; count * width]?;
    for (cell, list) in lists.iter().enumerate() {
        mark_cell(&mut words, width, cell, list.as_slice());
    }
    Ok(words)
}

/// Whether the rows of two variables, by their places from 0, have a bit in common. A step for each word of a row.
pub(crate) fn have_common_bit(words: &[u64], width: usize, at: usize, other: usize) -> bool
    requires few { length words.now ≤ 2 ^ 32 }
    requires at { at * width + width ≤ length words.now }
    requires other { other * width + width ≤ length words.now }
    ensures { IsTrue result ↔ HaveCommonBit words.now width at other }
{
    let first = at * width;
    let second = other * width;
    for k in 0..width {
        if words[first + k] & words[second + k] != 0 {
            return true;
        }
    }
    false
}
