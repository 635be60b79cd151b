//! The laws on logs: what holds wherever the clauses of a formula are true.
ghost use Rattle.heesch_cnf.specs.Meaning.{Shown-follows, Learn-follows, Refuted-unsatisfiable, Learned-unsatisfiable};

/// A clause that hints show is true wherever the clauses are.
pub fn shown_follows()
    ensures { Shown-follows }
{}

/// The clause of a Learn line that holds is true wherever the clauses before it are.
pub fn learn_follows()
    ensures { Learn-follows }
{}

/// Where a log refutes, no assignment satisfies the clauses of the formula and those that were given.
pub fn refuted_unsatisfiable()
    ensures { Refuted-unsatisfiable }
{}

/// Where a log of Learn lines alone refutes, no assignment satisfies the clauses of the formula.
pub fn learned_unsatisfiable()
    ensures { Learned-unsatisfiable }
{}
