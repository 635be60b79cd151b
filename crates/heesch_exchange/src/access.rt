//! The literals of a formula, in either of its forms.
ghost use Rattle.std.specs.Prelude.{◌≡◌, ◌≤◌, ◌<◌, ◌^◌, ℕ, List, [], length, slice_index_or};
ghost use Rattle.heesch_cnf.specs.declared.literal.Lit.{Lit as LitOf};
ghost use Rattle.heesch_cnf.specs.Clauses.{AreClauses};

use heesch_cnf::{FlatFormula, Formula, Lit};

/// A formula whose literals are read one by one.
pub trait HasLiterals {
    /// The number of its variables.
    ghost vars: { Self → ℕ };

    /// Its clauses.
    ghost clauses: { Self → List (List LitOf) };

    /// The number of the clauses.
    fn clause_count(&self) -> usize
        ensures count { result ≡ length (clauses self.now) }
        ensures few { result ≤ 2 ^ 31 }
        ensures form { AreClauses (vars self.now) (clauses self.now) };

    /// The number of literals of the clause of an index, which counts from 0.
    fn clause_len(&self, index: usize) -> usize
        requires { index < length (clauses self.now) }
        ensures { result ≡ length (slice_index_or (clauses self.now) index []) };

    /// The literal at a place, which counts from 0, of the clause of an index. Nothing is copied but the literal.
    fn literal(&self, index: usize, place: usize) -> Lit
        requires index { index < length (clauses self.now) }
        requires place { place < length (slice_index_or (clauses self.now) index []) }
        ensures { result ≡ slice_index_or (slice_index_or (clauses self.now) index []) place result };
}

impl HasLiterals for Formula {
    ghost vars = { λ f. f.vars };

    ghost clauses = { λ f. f.clauses };

    fn clause_count(&self) -> usize {
        self.clauses.len()
    }

    fn clause_len(&self, index: usize) -> usize {
        self.clauses.as_slice()[index].len()
    }

    fn literal(&self, index: usize, place: usize) -> Lit {
        self.clauses.as_slice()[index].as_slice()[place]
    }
}

impl HasLiterals for FlatFormula {
    ghost vars = { λ f. f.vars };

    ghost clauses = { λ f. f.clauses };

    fn clause_count(&self) -> usize {
        // Reading the number of the variables tells the proof that the clauses are over them.
        let _vars = self.vars();
        self.len()
    }

    fn clause_len(&self, index: usize) -> usize {
        self.clause(index).len()
    }

    fn literal(&self, index: usize, place: usize) -> Lit {
        self.clause(index)[place].lit()
    }
}
