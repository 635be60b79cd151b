//! Logs that hold, logs that do not, and lines that are not new.
use super::made::{Judged, formula_of, judged};
use heesch_cnf::{Formula, Line, Log};
use heesch_io::{NoMemory, Seq};
use heesch_made::{lits, same};
use heesch_rup::{LogAnswer, check_log};
use std::alloc::Global;
use std::test::Fail;

/// A clause, with its hints where it is learnt.
type Step<'a> = (&'a [i32], Option<&'a [u32]>);

/// The line of a step.
fn line_of(alloc: Global, step: Step) -> Result<Line, NoMemory> {
    let (numbers, hints) = step;
    let clause = lits(alloc, numbers)?;
    match hints {
        None => Ok(Line::Given { clause }),
        Some(hints) => {
            let hints = Seq::from_vec(Vec::from_slice(alloc, hints)?);
            Ok(Line::Learn { clause, hints })
        }
    }
}

/// The log of these steps without a last line.
fn log_of(alloc: Global, steps: &[Step]) -> Result<Log, NoMemory> {
    let mut lines = Seq::new(alloc);
    for step in steps {
        lines.push(line_of(alloc, *step)?)?;
    }
    Ok(Log { lines, last: None })
}

/// A formula's variables and clauses, a log's steps, and what is judged.
type Row<'a> = (&'a str, u32, &'a [&'a [i32]], &'a [Step<'a>], Judged);

const BAD: Judged = (LogAnswer::BadLine { at: 1 }, None);

const NEW: Judged = (LogAnswer::Open, Some(true));

const NOT_NEW: Judged = (LogAnswer::Open, Some(false));

/// Hints are taken in order, and a line that contains an earlier clause is not new.
const ROWS: [Row; 6] = [
    (
        "hints in order",
        3,
        &[&[1, 2], &[-2, 3], &[1, -3]],
        &[(&[1], Some(&[1, 2, 3]))],
        NEW,
    ),
    (
        "hints in another order",
        3,
        &[&[1, 2], &[-2, 3], &[1, -3]],
        &[(&[1], Some(&[2, 1, 3]))],
        BAD,
    ),
    (
        "a hint twice",
        3,
        &[&[1, 2], &[-2, 3], &[1, -3]],
        &[(&[1], Some(&[1, 1, 2, 3]))],
        BAD,
    ),
    (
        "apart",
        4,
        &[&[2, -3]],
        &[(&[1, 4], None), (&[2, 3, 4], None)],
        NEW,
    ),
    (
        "a clause of the formula in a line",
        4,
        &[&[2, -3]],
        &[(&[1, 4], None), (&[1, 2, -3], None)],
        NOT_NEW,
    ),
    (
        "a line in a later one",
        4,
        &[&[2, -3]],
        &[(&[1, 4], None), (&[1, 3, 4], None)],
        NOT_NEW,
    ),
];

#[test]
fn logs_are_judged(rt: HostRuntime) -> Result<(), Fail> {
    let alloc = rt.alloc();
    for (row, vars, clauses, steps, answer) in &ROWS {
        let formula = formula_of(alloc, *vars, clauses)?;
        let log = log_of(alloc, steps)?;
        same(row, judged(&rt, alloc, &formula, &log)?, *answer)?;
    }
    Ok(())
}

#[test]
fn a_given_clause_refutes(rt: HostRuntime) -> Result<(), Fail> {
    let alloc = rt.alloc();
    let formula = formula_of(alloc, 1, &[&[1]])?;
    let mut log = log_of(alloc, &[(&[-1], None)])?;
    log.last = Some(Seq::from_vec([1, 2].to_vec(alloc)?));
    let answer = judged(&rt, alloc, &formula, &log)?;
    same(
        "the clause and the line",
        answer,
        (LogAnswer::Refuted, Some(true)),
    )
}

/// As many lines `1 2` by the hints 1 and 2, but `1` by them where the line's number, from 1, is told.
fn repeated(alloc: Global, count: usize, bad: &[usize]) -> Result<Log, NoMemory> {
    let mut lines = Seq::new(alloc);
    for number in 1..=count {
        let numbers: &[i32] = if bad.contains(&number) { &[1] } else { &[1, 2] };
        lines.push(line_of(alloc, (numbers, Some(&[1, 2])))?)?;
    }
    Ok(Log { lines, last: None })
}

/// 3,000 lines are checked in turn, and 6,000 by chunks.
#[test]
fn the_least_bad_line_of_a_long_log_is_told(rt: HostRuntime) -> Result<(), Fail> {
    let alloc = rt.alloc();
    let formula = formula_of(alloc, 3, &[&[1, 2, 3], &[1, 2, -3]])?;
    let bad = [2500, 2900, 5900];
    let at = LogAnswer::BadLine { at: 2500 };
    for (row, count, bad, answer) in [
        ("none of 3,000", 3000, [].as_slice(), LogAnswer::Open),
        ("two of 3,000", 3000, &bad[..2], at),
        ("two of 3,000 and one behind", 3000, &bad, at),
        ("none of 6,000", 6000, &[], LogAnswer::Open),
        ("two of 6,000", 6000, &bad[..2], at),
        ("three of 6,000", 6000, &bad, at),
    ] {
        let log = repeated(alloc, count, bad)?;
        same(row, check_log(&rt, alloc, &formula, &log)?, answer)?;
    }
    Ok(())
}

/// Given lines, one for each two of 120 variables, and the first once more after as many of them.
fn pairs(alloc: Global, repeat: usize) -> Result<Log, NoMemory> {
    let mut lines = Seq::new(alloc);
    for first in 1..120 {
        for second in first + 1..=120 {
            if lines.len() == repeat {
                lines.push(line_of(alloc, (&[1, 2], None))?)?;
            }
            lines.push(line_of(alloc, (&[first, second], None))?)?;
        }
    }
    Ok(Log { lines, last: None })
}

/// The 7,140 lines are searched by chunks.
#[test]
fn a_line_of_a_later_chunk_may_contain_one_of_the_first(rt: HostRuntime) -> Result<(), Fail> {
    let alloc = rt.alloc();
    let formula = Formula::new(alloc, 120);
    for (row, repeat, answer) in [
        ("behind 5,000", 5000, NOT_NEW),
        ("behind the first", 1, NOT_NEW),
        ("not repeated", 10_000, NEW),
    ] {
        same(
            row,
            judged(&rt, alloc, &formula, &pairs(alloc, repeat)?)?,
            answer,
        )?;
    }
    Ok(())
}
