//! The lines that are checked, wherever they stand.
ghost use Rattle.std.specs.Prelude.{◌≡◌, ◌<◌, length, slice_index_or};
ghost use Rattle.std.specs.Option.{option_copied};
ghost use Rattle.heesch_cnf.specs.declared.log.Line.{Line as LineOf};
ghost use Rattle.heesch_cnf.specs.declared.log.Log.{Log as LogOf};
ghost use Rattle.heesch_cnf.specs.Lines.{clause_of};
ghost use Rattle.heesch_rup.specs.Hints.{hints_of};

use heesch_cnf::{Line, Lit, Log};

/// The lines of a log, and the hints of its final line, read where they stand: nothing is copied.
///
/// Its meaning is the log. Lines count from 0. Each call takes a fixed number of steps.
pub trait Steps {
    /// The log.
    ghost written: { Self → LogOf };

    /// The number of the lines.
    fn count(&self) -> usize
        ensures { result ≡ length (written self.now).lines };

    /// The clause of a line.
    fn clause(&self, index: usize) -> &[Lit]
        requires { index < length (written self.now).lines }
        ensures { (d : LineOf) → result.now ≡ clause_of (slice_index_or (written self.now).lines index d) };

    /// The hints of a line, and none where its clause is given.
    fn hints(&self, index: usize) -> Option<&[u32]>
        requires { index < length (written self.now).lines }
        ensures { (d : LineOf) → option_copied result ≡ hints_of (slice_index_or (written self.now).lines index d) };

    /// The hints of the final line, if there is one.
    fn last(&self) -> Option<&[u32]>
        ensures { option_copied result ≡ (written self.now).last };
}

/// The clause of a line.
fn clause_of(line: &Line) -> &[Lit]
    ensures { result.now ≡ clause_of line.now }
{
    match line {
        Line::Learn { clause, .. } | Line::Given { clause } => clause.as_slice(),
    }
}

/// The hints of a line, and none where its clause is given.
fn hints_of(line: &Line) -> Option<&[u32]>
    ensures { option_copied result ≡ hints_of line.now }
{
    match line {
        Line::Learn { hints, .. } => Some(hints.as_slice()),
        Line::Given { .. } => None,
    }
}

impl Steps for Log {
    ghost written = { λ log. log };

    fn count(&self) -> usize {
        self.lines.len()
    }

    fn clause(&self, index: usize) -> &[Lit] {
        clause_of(&self.lines.as_slice()[index])
    }

    fn hints(&self, index: usize) -> Option<&[u32]> {
        hints_of(&self.lines.as_slice()[index])
    }

    fn last(&self) -> Option<&[u32]> {
        match &self.last {
            None => None,
            Some(hints) => Some(hints.as_slice()),
        }
    }
}
