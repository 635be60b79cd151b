//! Moves from cell to cell, and how many units they are.
ghost use Rattle.std.specs.Prelude.{◌≡◌, ◌+◌, ◌≤ℤ◌, ◌*ℤ◌, ◌≤◌, ℕ, ℤ, pos, neg_ℤ, nat_abs, IfSome, IfNone};
ghost use Rattle.heesch_grid.specs.declared.Cell.{Cell};
ghost use Rattle.heesch_grid.specs.Vectors.{AreUnitsOf, IsWithin, plus};

use crate::Cell;

/// The quotient of z by n, which is at least 1 and at most 4,096, where n divides z. z lies within 10^10 of 0.
pub fn exact_quotient(z: i64, n: i64) -> Option<i64>
    requires positive { pos 1 ≤ℤ n }
    requires small { n ≤ℤ pos 4096 }
    requires low { neg_ℤ (pos 10000000000) ≤ℤ z }
    requires high { z ≤ℤ pos 10000000000 }
    ensures some { IfSome result (λ q. n *ℤ q ≡ z) }
    ensures size { IfSome result (λ q. nat_abs q ≤ nat_abs z) }
    ensures none { IfNone result ((q : ℤ) → n *ℤ q ≡ z → ⊥) }
{
    if z.rem_euclid(n) != 0 {
        return None;
    }
    Some(z.div_euclid(n))
}

/// How many units z is, where it is a whole number of them.
fn whole_units(z: i32, unit: i32) -> Option<i32>
    requires positive { pos 1 ≤ℤ unit }
    requires small { unit ≤ℤ pos 6 }
    ensures some { IfSome result (λ q. unit *ℤ q ≡ z) }
    ensures size { IfSome result (λ q. nat_abs q ≤ nat_abs z) }
    ensures none { IfNone result ((q : ℤ) → unit *ℤ q ≡ z → ⊥) }
{
    let Some(q) = exact_quotient(z as i64, unit as i64) else {
        return None;
    };
    Some(q as i32)
}

/// The units that the move is, where it is a move by whole units. The unit is at most 6.
pub fn units_of(step: Cell, unit: i32) -> Option<Cell>
    requires positive { pos 1 ≤ℤ unit }
    requires small { unit ≤ℤ pos 6 }
    ensures some { IfSome result (λ units. AreUnitsOf unit units step) }
    ensures near { IfSome result (λ units. (n : ℕ) → IsWithin n step → IsWithin n units) }
    ensures none { IfNone result ((units : Cell) → AreUnitsOf unit units step → ⊥) }
{
    let Some(a) = whole_units(step.a, unit) else {
        return None;
    };
    let Some(b) = whole_units(step.b, unit) else {
        return None;
    };
    Some(Cell { a, b })
}

/// The move from one cell to the other. Their coordinates lie within 2,000,000 of 0.
pub fn difference(from: Cell, to: Cell) -> Cell
    requires from { IsWithin 2000000 from }
    requires to { IsWithin 2000000 to }
    ensures is { plus result from ≡ to }
    ensures within { (m n : ℕ) → IsWithin m from → IsWithin n to → IsWithin (m + n) result }
{
    Cell {
        a: to.a - from.a,
        b: to.b - from.b,
    }
}

/// The cell, moved by the step. The coordinates of the cell lie within 2,000,000 of 0, those of the step within
/// 3,000,000.
pub fn moved(from: Cell, step: Cell) -> Cell
    requires from { IsWithin 2000000 from }
    requires step { IsWithin 3000000 step }
    ensures { result ≡ plus step from }
{
    Cell {
        a: step.a + from.a,
        b: step.b + from.b,
    }
}
