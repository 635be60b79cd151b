//! What is left of literals that are looked at one after another.
ghost use Rattle.std.specs.Prelude.{◌≡◌, ◌<◌, ◌++◌, ◌∷◌, [], List, All, MatchBool, length};
ghost use Rattle.heesch_cnf.specs.declared.literal.Lit.{Lit};
ghost use Rattle.heesch_cnf.specs.Clauses.{left_of};
ghost use Rattle.heesch_cnf.specs.Left.{IsLeft};
ghost use Rattle.heesch_cnf.specs.Literals.{Values, held};
ghost use Rattle.heesch_encode.specs.Literals.{plus_all};
ghost use Rattle.heesch_numbers.specs.Seen.{is_out, IsSeen};

use heesch_cnf::{Left, Lit, value_of};

/// Whether the literal is false.
pub(crate) fn is_out(values: &[Option<bool>], lit: Lit) -> bool
    requires { lit.var < length values.now }
    ensures { result ≡ is_out (held values.now) lit }
{
    match value_of(values, lit) {
        None => false,
        Some(value) => !value,
    }
}

/// What is left, where something was left of the literals before, and of this one.
pub(crate) fn left_with(left: Left, values: &[Option<bool>], lit: Lit) -> Left
    requires { lit.var < length values.now }
    ensures { (seen : List Lit) → IsSeen (held values.now) seen left
        → IsSeen (held values.now) (seen ++ lit ∷ []) result }
{
    if is_out(values, lit) {
        return left;
    }
    match left {
        Left::Nothing => Left::One(lit),
        Left::One(one) => { if one == lit { left } else { Left::More } }
        Left::More => Left::More,
    }
}

/// What is left, where something was left of the literals before, and of these variables. It stops where two are left.
/// It takes no memory and a constant time for each variable.
pub fn left_with_all(left: Left, values: &[Option<bool>], numbers: &[u32]) -> Left
    requires { All (λ n. n < length values.now) numbers.now }
    ensures { (seen : List Lit) → IsSeen (held values.now) seen left
        → IsSeen (held values.now) (seen ++ plus_all numbers.now) result }
{
    let mut now = left;
    for var in numbers {
        let lit = Lit {
            var: *var,
            positive: true,
        };
        now = left_with(now, values, lit);
        if let Left::More = now {
            return now;
        }
    }
    now
}

/// Whether something is left. A constant time.
pub fn remains(left: Left) -> bool
    ensures { (values : Values) (clause : List Lit) → IsLeft values clause left
        → MatchBool result (¬ (left_of values clause ≡ [])) (left_of values clause ≡ []) }
{
    match left {
        Left::Nothing => false,
        Left::One(_) => true,
        Left::More => true,
    }
}
