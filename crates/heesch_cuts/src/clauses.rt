//! The clause of a cut.
ghost use Rattle.std.specs.Prelude.{◌≡◌, ◌<◌, ◌≤◌, ◌+◌, ◌++◌, ◌||◌, ℕ, length, IfOk, OnOk, option_to_list, filter_map};
ghost use Rattle.std.specs.List.{list_any, range_with_len};
ghost use Rattle.heesch_place.specs.Universes.{IsUniverseOf, covering};
ghost use Rattle.heesch_cert.specs.Cuts.{IsLawful, cut_clause};
ghost use Rattle.heesch_cuts.specs.Marks.{is_marked, is_in, literal_of};

use crate::marks::{mark_all, marks_of, no_marks};
use heesch_cert::Cut;
use heesch_cnf::{Lit, Lits};
use heesch_grid::{Cell, Grid};
use heesch_io::{NoMemory, Seq};
use heesch_place::Universe;
use std::alloc::Global;

/// Marks the variables of level at most `level` whose placements have one of the cells.
fn mark_fillers<G: Grid>(marks: &mut [bool], universe: &Universe<G>, level: u32, cells: &[Cell])
    requires { length universe.now.vars < length marks.old }
    ensures { (n : ℕ) → is_marked marks.new n ≡
        (is_marked marks.old n || list_any (λ c. is_in (covering universe.now.vars level c) n) cells.now) }
{
    for c in cells {
        mark_all(marks, universe.covered_by(*c, level));
    }
}

/// Just those variables are marked.
fn fillers_of<G: Grid>(
    alloc: Global,
    universe: &Universe<G>,
    level: u32,
    cells: &[Cell],
) -> Result<Vec<bool>, NoMemory>
    ensures size { IfOk result (λ marks. length marks.items ≡ length universe.now.vars + 1) }
    ensures marks { IfOk result
        (λ marks. (n : ℕ) → is_marked marks.items n ≡ list_any
        (λ c. is_in (covering universe.now.vars level c) n) cells.now) }
{
    let mut marks = no_marks(alloc, universe.count())?;
    mark_fillers::<G>(&mut marks, universe, level, cells);
    Ok(marks)
}

/// The literal of the number stands last, if there is one.
fn push_literal(clause: &mut Lits, negated: bool, asserted: bool, n: u32) -> Result<(), NoMemory>
    ensures { OnOk result (clause.new ≡ clause.old ++ option_to_list (literal_of negated asserted n)) }
{
    if negated {
        clause.push(Lit {
            var: n,
            positive: false,
        })?;
    } else if asserted {
        clause.push(Lit {
            var: n,
            positive: true,
        })?;
    }
    Ok(())
}

/// The clause of the numbers from 1 to count that are marked as negated, and of the others that are marked as
/// asserted.
fn literals(
    alloc: Global,
    negated: &[bool],
    asserted: &[bool],
    count: u32,
) -> Result<Lits, NoMemory>
    requires negated { count < length negated.now }
    requires asserted { count < length asserted.now }
    ensures { IfOk result
        (λ clause. clause ≡ filter_map (λ n. literal_of (is_marked negated.now n) (is_marked asserted.now n) n)
        (range_with_len 1 count)) }
{
    let mut clause = Seq::new(alloc);
    for i in 0..count {
        let n = i as usize + 1;
        push_literal(&mut clause, negated[n], asserted[n], i + 1)?;
    }
    Ok(clause)
}

/// The clause of a lawful cut: the negations of its border, and every variable of its level or
/// below, not in the border, whose placement meets the hole, in rising order of the variables.
///
/// It marks the border, and what covers each cell of the hole, and goes over the universe's
/// variables once. Besides the clause it takes two bytes a variable.
pub fn clause_of<G: Grid>(
    alloc: Global,
    universe: &Universe<G>,
    cut: &Cut,
) -> Result<Lits, NoMemory>
    requires universe { IsUniverseOf G.geometry universe.now }
    requires lawful { IsLawful G.geometry universe.now.shape universe.now.level universe.now.vars cut.now }
    ensures { IfOk result (λ clause. clause ≡ cut_clause universe.now.vars cut.now) }
{
    let count = universe.count();
    let border = marks_of(alloc, count, cut.border.as_slice())?;
    let fillers = fillers_of::<G>(alloc, universe, cut.level, cut.hole.as_slice())?;
    literals(alloc, &border, &fillers, count)
}
