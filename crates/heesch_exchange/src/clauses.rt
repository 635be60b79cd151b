//! The clause text of a formula.
ghost use Rattle.std.specs.Prelude.{◌≡◌, ◌++◌, length, take, OnOk, OnErr, codes};
ghost use Rattle.std.specs.List.{flat_map};
ghost use Rattle.heesch_exchange.specs.ClauseTexts.{problem_line, clause_text};

use heesch_cnf::{FlatFormula, Formula};
use heesch_io::NoMemory;
use heesch_text::fields::{Word, append_byte, append_bytes, append_labelled, undone_at_error};
use itoa::Buffer;

/// Appends the clause text of a formula, which other solvers read: the line `p cnf V C`, with its numbers of variables
/// and clauses, and for each clause in order a line with its literals, a space after each, and `0`.
///
/// Errors: at `NoMemory` the text is as it was before. Its cost is the length of what it appends.
pub fn write_cnf(formula: &Formula, out: &mut Vec<u8>) -> Result<(), NoMemory>
    ensures ok { OnOk result (out.new.items ≡ out.old.items ++ clause_text formula.now.vars formula.now.clauses) }
    ensures err { OnErr result (out.new.items ≡ out.old.items) }
{
    undone_at_error(out.len(), append_formula(formula, out), out)
}

/// Appends the clause text of a formula in one array, as `write_cnf` does.
///
/// Errors: at `NoMemory` the text is as it was before. Its cost is the length of what it appends.
pub fn write_flat_cnf(formula: &FlatFormula, out: &mut Vec<u8>) -> Result<(), NoMemory>
    ensures ok { OnOk result (out.new.items ≡ out.old.items ++ clause_text formula.now.vars formula.now.clauses) }
    ensures err { OnErr result (out.new.items ≡ out.old.items) }
{
    undone_at_error(out.len(), append_flat(formula, out), out)
}

fn append_formula(formula: &Formula, out: &mut Vec<u8>) -> Result<(), NoMemory>
    ensures ok { OnOk result (out.new.items ≡ out.old.items ++ clause_text formula.now.vars formula.now.clauses) }
    ensures kept { take (length out.old.items) out.new.items ≡ out.old.items }
{
    append_problem(formula.vars, formula.clauses.len(), out)?;
    for clause in formula.clauses.as_slice() {
        append_clause(clause.as_slice(), out)?;
    }
    Ok(())
}

fn append_flat(formula: &FlatFormula, out: &mut Vec<u8>) -> Result<(), NoMemory>
    ensures ok { OnOk result (out.new.items ≡ out.old.items ++ clause_text formula.now.vars formula.now.clauses) }
    ensures kept { take (length out.old.items) out.new.items ≡ out.old.items }
{
    append_problem(formula.vars(), formula.len(), out)?;
    for index in 0..formula.len() {
        append_clause(formula.clause(index), out)?;
    }
    Ok(())
}

/// The line `p cnf V C`.
fn append_problem(vars: u32, count: usize, out: &mut Vec<u8>) -> Result<(), NoMemory>
    ensures ok { OnOk result (out.new.items ≡ out.old.items ++ problem_line vars count) }
    ensures kept { take (length out.old.items) out.new.items ≡ out.old.items }
{
    append_labelled(b"p cnf ", vars, out)?;
    append_byte(b' ', out)?;
    append_bytes(Buffer::new().format(count).as_bytes(), out)?;
    append_bytes(b"\n", out)
}

/// The line of a clause.
#[tactic(auto, using(heesch_text::proofs::Kept::kept_through))]
fn append_clause<W: Word>(clause: &[W], out: &mut Vec<u8>) -> Result<(), NoMemory>
    ensures ok { OnOk result (out.new.items
        ≡ out.old.items ++ (flat_map (λ literal. W.text literal ++ codes " ") clause.now ++ codes "0\n")) }
    ensures kept { take (length out.old.items) out.new.items ≡ out.old.items }
{
    for literal in clause {
        literal.append_word(out)?;
        append_byte(b' ', out)?;
    }
    append_bytes(b"0\n", out)
}
