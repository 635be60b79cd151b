//! What outer numbers and the answers on them mean, each the contract of a function that does nothing.
ghost use Rattle.heesch_outer.specs.Statements.{
  FewerOuterCoronasExist,
  OuterAnswersAreRight,
  OuterCoronasLieBetween,
  OuterNumbersAreNext,
  OuterNumbersAreUnique,
  OuterNumbersLieBelow,
  OuterRefutationsLeaveNone,
};

/// A shape has as many outer coronas as hole-free ones or more, and no more than with holes allowed. Where it has k of
/// them it has fewer too, so it has at most one outer number.
pub fn outer_numbers_are_unique()
    ensures between { OuterCoronasLieBetween }
    ensures fewer { FewerOuterCoronasExist }
    ensures once { OuterNumbersAreUnique }
{}

/// The outer number of a shape is its Heesch number or one more: one more exactly where so many outer coronas exist.
pub fn outer_numbers_are_next()
    ensures { OuterNumbersAreNext }
{}

/// The outer number of a shape that has no m coronas, holes allowed, is at most m - 1.
pub fn outer_numbers_lie_below()
    ensures { OuterNumbersLieBelow }
{}

/// A refutation with lawful cuts of the levels 1 to h leaves no h + 1 outer coronas.
pub fn outer_refutations_leave_none()
    ensures { OuterRefutationsLeaveNone }
{}

/// An answer that is allowed for a true entry tells the outer number of its shape: h + 1, or h.
pub fn outer_answers_are_right()
    ensures { OuterAnswersAreRight }
{}
