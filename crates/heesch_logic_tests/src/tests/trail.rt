//! How many clauses propagation visits.
use heesch_cnf::{FlatFormula, Lit, is_clause};
use heesch_io::NoMemory;
use heesch_made::same;
use heesch_trail::Trail;
use std::alloc::Global;
use std::test::Fail;

/// The literal of a variable.
fn literal(var: u32, positive: bool) -> Lit {
    Lit { var, positive }
}

/// Adds the clause, where the formula has room for it.
fn add(formula: &mut FlatFormula, clause: &[Lit]) -> Result<(), NoMemory> {
    if formula.len() < 4000 && is_clause(formula.vars(), clause) {
        formula.add(clause)?;
    }
    Ok(())
}

/// 4,000 variables, and for i from 1 to 3,999 the clause that variable 4,000 - i implies the next.
fn chain(alloc: Global) -> Result<Trail, NoMemory> {
    let mut formula = FlatFormula::new(alloc, 4000);
    for i in 1..4000 {
        let clause = [literal(4000 - i, false), literal(4001 - i, true)];
        add(&mut formula, &clause)?;
    }
    Trail::over(alloc, formula)
}

/// Variable 1 is made true, if it is open, and what follows. How many variables have a value then; none at a conflict.
fn run_through(trail: &mut Trail) -> Result<usize, NoMemory> {
    let one = Lit {
        var: 1,
        positive: true,
    };
    if trail.vars() == 4000 && trail.value(1).is_none() {
        trail.decide(one)?;
    }
    Ok(if trail.propagate()?.is_none() {
        trail.made().len()
    } else {
        0
    })
}

#[test]
fn visits_few_clauses(rt: HostRuntime) -> Result<(), Fail> {
    let mut trail = chain(rt.alloc())?;
    same("made", run_through(&mut trail)?, 4000)?;
    same("visits", trail.visits() <= 8000, true)
}

/// All variables get a value and lose it, with at most ten visits behind the decision.
fn runs_through_and_back(trail: &mut Trail) -> Result<bool, NoMemory> {
    let all = run_through(trail)?;
    let visits = trail.visits();
    trail.back_to(0);
    let is_open = trail.propagate()?.is_none() && trail.made().is_empty();
    Ok(all == 4000 && is_open && trail.visits() <= visits.saturating_add(10))
}

#[test]
fn visits_no_clause_again(rt: HostRuntime) -> Result<(), Fail> {
    let mut trail = chain(rt.alloc())?;
    same("no conflict", trail.propagate()?.is_none(), true)?;
    for _ in 0..100 {
        same("all, and back", runs_through_and_back(&mut trail)?, true)?;
    }
    same(
        "visits",
        trail.visits() >= 3999 && trail.visits() <= 500_000,
        true,
    )
}
