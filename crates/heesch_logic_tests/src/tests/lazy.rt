//! Small cover problems, and a slow check of what their logs show.
use heesch_cnf::{Lit, PackedLit};
use heesch_cover::{CoverTable, NumberLists};
use heesch_io::NoMemory;
use heesch_lazy::{CoverLog, Found, Reason, Search};
use heesch_made::same;
use std::alloc::Global;
use std::test::Fail;

/// The cells of a ring are to be covered by pairs of neighbours: variable v has the cells v - 1 and v.
fn ring(alloc: Global, cells: u32) -> Result<CoverTable, NoMemory> {
    let mut tiles = NumberLists::new(alloc, cells);
    for cell in 0..cells {
        let next = if cell + 1 == cells { 0 } else { cell + 1 };
        tiles.push(&[cell, next])?;
    }
    let mut table = CoverTable::of(alloc, tiles)?;
    for cell in 0..cells {
        let want = table.want_cell(cell, cells)?;
        table.want_first(want)?;
    }
    Ok(table)
}

fn push_each(literals: &mut Vec<Lit>, variables: &[u32], positive: bool) -> Result<(), NoMemory> {
    for variable in variables {
        literals.push(Lit {
            var: *variable,
            positive,
        })?;
    }
    Ok(())
}

fn push_packed(literals: &mut Vec<Lit>, clause: &[PackedLit]) -> Result<(), NoMemory> {
    for literal in clause {
        literals.push(literal.lit())?;
    }
    Ok(())
}

/// The literals of the clause that a reason is.
fn literals(
    alloc: Global,
    table: &CoverTable,
    log: &CoverLog,
    reason: Reason,
) -> Result<Vec<Lit>, NoMemory> {
    let mut literals = Vec::new(alloc);
    match reason {
        Reason::First { want } => push_each(&mut literals, table.candidates(want), true)?,
        Reason::Asked { variable, want } => {
            push_each(&mut literals, &[variable], false)?;
            push_each(&mut literals, table.candidates(want), true)?;
        }
        Reason::Apart { tile, other } => push_each(&mut literals, &[tile, other], false)?,
        Reason::Line { index } => push_packed(&mut literals, log.clause(index as usize))?,
    }
    Ok(literals)
}

/// The literals but those that these make false.
fn open_of(alloc: Global, truths: &[Lit], literals: &[Lit]) -> Result<Vec<Lit>, NoMemory> {
    let mut open = Vec::new(alloc);
    for literal in literals {
        if !truths.contains(&literal.opposite()) {
            open.push(*literal)?;
        }
    }
    Ok(open)
}

/// Whether, where the clause's literals are false, each reason's clause in turn has one literal that isn't, and the
/// last none.
fn shows(
    alloc: Global,
    table: &CoverTable,
    log: &CoverLog,
    clause: &[PackedLit],
    reasons: &[Reason],
) -> Result<bool, NoMemory> {
    let mut truths = Vec::new(alloc);
    for literal in clause {
        truths.push(literal.lit().opposite())?;
    }
    for reason in reasons {
        let open = open_of(alloc, &truths, &literals(alloc, table, log, *reason)?)?;
        match open.as_slice() {
            [] => return Ok(true),
            [literal] => truths.push(*literal)?,
            _ => return Ok(false),
        }
    }
    Ok(false)
}

/// Whether each line that was learnt holds, and the last one, which is there.
fn holds(alloc: Global, table: &CoverTable, log: &CoverLog) -> Result<bool, NoMemory> {
    for index in 0..log.len() {
        let learnt = log.given(index).is_none();
        if learnt && !shows(alloc, table, log, log.clause(index), log.reasons(index))? {
            return Ok(false);
        }
    }
    match log.last() {
        None => Ok(false),
        Some(reasons) => shows(alloc, table, log, &[], reasons),
    }
}

/// Gives that not all of these are chosen.
fn give(alloc: Global, search: &mut Search, chosen: &[u32]) -> Result<(), NoMemory> {
    let mut clause = Vec::new(alloc);
    push_each(&mut clause, chosen, false)?;
    search.give(&clause)
}

/// How many choices a ring has, each given as one that isn't wanted, until there is none. None where there are a
/// hundred, or where turns are wanting.
fn choices(alloc: Global, search: &mut Search) -> Result<Option<u32>, NoMemory> {
    for count in 0..100u32 {
        match search.next(100)? {
            Found::Model { chosen } => give(alloc, search, chosen.as_slice())?,
            Found::Refuted => return Ok(Some(count)),
            _ => return Ok(None),
        }
    }
    Ok(None)
}

/// The choices of a ring, and whether the log holds.
fn found_in_ring(alloc: Global, cells: u32) -> Result<(Option<u32>, bool), NoMemory> {
    let mut search = Search::over(alloc, ring(alloc, cells)?)?;
    let count = choices(alloc, &mut search)?;
    let (table, log) = search.into_log()?;
    Ok((count, holds(alloc, &table, &log)?))
}

#[test]
fn rings_have_two_covers_or_none(rt: HostRuntime) -> Result<(), Fail> {
    same("six", found_in_ring(rt.alloc(), 6)?, (Some(2), true))?;
    same("seven", found_in_ring(rt.alloc(), 7)?, (Some(0), true))
}

#[test]
fn an_odd_ring_takes_a_turn(rt: HostRuntime) -> Result<(), Fail> {
    let mut search = Search::over(rt.alloc(), ring(rt.alloc(), 5)?)?;
    same("spent", matches!(search.next(0)?, Found::Spent), true)
}

/// A ring of four in which the first wants tile 3, and the second what isn't there.
fn ring_that_asks(alloc: Global) -> Result<CoverTable, NoMemory> {
    let mut table = ring(alloc, 4)?;
    let want = table.want_one_of(&[3])?;
    let none = table.want_one_of(&[])?;
    table.ask(&[want])?;
    table.ask(&[none])?;
    Ok(table)
}

#[test]
fn one_that_is_asked_for_in_vain_is_denied(rt: HostRuntime) -> Result<(), Fail> {
    let mut search = Search::over(rt.alloc(), ring_that_asks(rt.alloc())?)?;
    let Found::Model { chosen } = search.next(0)? else {
        return Err(Fail::new("no choice"));
    };
    same("chosen", chosen.as_slice(), [1, 3].as_slice())
}
