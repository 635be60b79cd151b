//! How often clauses have each literal.
ghost use Rattle.std.specs.Prelude.{◌≡◌, ◌<◌, ◌+◌, ◌*◌, length, All, IfOk, vec_len};
ghost use Rattle.heesch_cnf.specs.Flat.{code_of};

use heesch_cnf::{FlatFormula, PackedLit};
use heesch_io::NoMemory;
use std::alloc::Global;

/// Counts each literal of the clause, as far as a `u32` counts.
fn count_literals(counts: &mut [u32], clause: &[PackedLit])
    requires { All (λ l. code_of l < length counts.old) clause.now }
    ensures { length counts.new ≡ length counts.old }
{
    for lit in clause {
        let code = lit.code();
        counts[code] = counts[code].saturating_add(1);
    }
}

/// How often the clauses have each literal, by its number. No answer rests on these counts, but only what it costs.
pub fn counts_of(alloc: Global, clauses: &FlatFormula) -> Result<Vec<u32>, NoMemory>
    ensures { IfOk result (λ counts. vec_len counts ≡ 2 * clauses.now.vars + 2) }
{
    let mut counts = vec![in alloc; 0; 2 * clauses.vars() as usize + 2]?;
    for index in 0..clauses.len() {
        count_literals(&mut counts, clauses.clause(index));
    }
    Ok(counts)
}
