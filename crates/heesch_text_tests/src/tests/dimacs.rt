//! Clause texts and model texts worked by hand.
use heesch_cnf::{FlatFormula, Formula, is_clause};
use heesch_exchange::ModelStop::{NotText, Stranger};
use heesch_exchange::{ModelStop, first_false, read_model, write_cnf, write_flat_cnf};
use heesch_io::Seq;
use heesch_made::{lits, same};
use std::alloc::Global;
use std::test::Fail;

/// x1 or not x3; the empty clause; not x2.
fn formula(alloc: Global) -> Result<Formula, Fail> {
    let mut formula = Formula {
        vars: 3,
        clauses: Seq::new(alloc),
    };
    for clause in [[1, -3].as_slice(), [].as_slice(), [-2].as_slice()] {
        let clause = lits(alloc, clause)?;
        if is_clause(3, clause.as_slice()) && formula.vars == 3 && formula.clauses.len() < 3 {
            formula.add(clause)?;
        }
    }
    Ok(formula)
}

/// The text of a formula with an empty clause, from both of its forms.
#[test]
fn a_formula_is_written(rt: HostRuntime) -> Result<(), Fail> {
    let alloc = rt.alloc();
    let formula = formula(alloc)?;
    let wanted = b"p cnf 3 3\n1 -3 0\n0\n-2 0\n".as_slice();
    let mut out = Vec::new(alloc);
    write_cnf(&formula, &mut out)?;
    same("formula", out.as_slice(), wanted)?;
    let mut flat = Vec::new(alloc);
    write_flat_cnf(&FlatFormula::of(alloc, &formula)?, &mut flat)?;
    same("flat formula", flat.as_slice(), wanted)
}

/// The first clause without a true literal, in both forms of a formula of three variables.
fn false_clauses(
    formula: &Formula,
    flat: &FlatFormula,
    values: &[bool],
) -> (Option<u32>, Option<u32>) {
    if formula.vars != 3 || flat.vars() != 3 || values.len() != 3 {
        return (None, None);
    }
    (first_false(formula, values), first_false(flat, values))
}

#[test]
fn the_first_false_clause_is_named(rt: HostRuntime) -> Result<(), Fail> {
    let formula = formula(rt.alloc())?;
    let flat = FlatFormula::of(rt.alloc(), &formula)?;
    for (row, values, number) in [
        ("all true", [true, true, true], Some(2)),
        ("the last true", [false, false, true], Some(1)),
    ] {
        same(
            row,
            false_clauses(&formula, &flat, &values),
            (number, number),
        )?;
    }
    Ok(())
}

/// The values of a text over so many variables, or why there are none.
fn read(alloc: Global, text: &str, vars: u32) -> Result<Vec<bool>, ModelStop> {
    let values = read_model(alloc, text.as_bytes(), vars)?;
    Ok(values.into_vec())
}

/// Texts of one model over four variables, with comments, several lines and lines without words.
const MODELS: [&str; 3] = [
    "s SATISFIABLE\nv -1 2 -3 4 0\n",
    "c by hand\ns SATISFIABLE\nc\nv 2\nv\nv 4 -1\nc v 1 0\nv 0\nc \n",
    "s SATISFIABLE\nv 4 2 0\n",
];

#[test]
fn models_are_read(rt: HostRuntime) -> Result<(), Fail> {
    for text in &MODELS {
        let values = read(rt.alloc(), text, 4)?;
        same(
            text,
            values.as_slice(),
            [false, true, false, true].as_slice(),
        )?;
    }
    Ok(())
}

/// Texts that are no model texts, or that name variables above eight or one twice, and the first line at fault.
const STOPS: [(&str, ModelStop); 21] = [
    ("", NotText { line: 1 }),
    ("s UNSATISFIABLE\n", NotText { line: 1 }),
    ("s SATISFIABLE", NotText { line: 1 }),
    ("s SATISFIABLE\r\nv 0\r\n", NotText { line: 1 }),
    ("c\ns SATISFIABLE\n", NotText { line: 3 }),
    ("s SATISFIABLE\ns SATISFIABLE\nv 0\n", NotText { line: 2 }),
    ("s SATISFIABLE\nv 1\n", NotText { line: 3 }),
    ("s SATISFIABLE\nv 1 0", NotText { line: 2 }),
    ("s SATISFIABLE\nv 1 0 2\n", NotText { line: 2 }),
    ("s SATISFIABLE\nv 1 0\nv 0\n", NotText { line: 3 }),
    ("s SATISFIABLE\nv 01 0\n", NotText { line: 2 }),
    ("s SATISFIABLE\nv  1 0\n", NotText { line: 2 }),
    ("s SATISFIABLE\nv 1 0 \n", NotText { line: 2 }),
    ("s SATISFIABLE\nv +1 0\n", NotText { line: 2 }),
    ("s SATISFIABLE\nv 4294967296 0\n", NotText { line: 2 }),
    ("s SATISFIABLE\nv 9 x 0\n", NotText { line: 2 }),
    ("s SATISFIABLE\nx\nv 0\n", NotText { line: 2 }),
    ("s SATISFIABLE\nv 9 0\n", Stranger { line: 2 }),
    ("s SATISFIABLE\nv 1\nv 1 0\n", Stranger { line: 3 }),
    ("s SATISFIABLE\nv 1 -1 0\n", Stranger { line: 2 }),
    ("s SATISFIABLE\nv 4294967295\nx\n", Stranger { line: 2 }),
];

#[test]
fn faults_and_strangers_are_found(rt: HostRuntime) -> Result<(), Fail> {
    for (text, stop) in &STOPS {
        same(text, read(rt.alloc(), text, 8).err(), Some(*stop))?;
    }
    Ok(())
}
