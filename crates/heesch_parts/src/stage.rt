//! How far a joined text has come.
ghost use Rattle.std.specs.Prelude.{◌≡◌, ◌↔◌, IsTrue, Ok};
ghost use Rattle.heesch_text.specs.declared.line.Line.TheVariants as lines;
ghost use Rattle.heesch_parts.specs.PartLines.{IsPartLine, IsShare};
ghost use Rattle.heesch_parts.specs.Stages.{start, share_step, may_join, Agrees, HeaderStep, led, CatalogueStep};
ghost use Rattle.heesch_parts.specs.Stages.{Step, end_fault};

use crate::part_line::PartLine;
use heesch_cert::{Header, Subject};
use heesch_grammar::{Place, Spot};
use heesch_reader::Progress;
use heesch_text::Line;

/// The fault of a line that can't stand, and of an end of input that can't come.
pub const CANNOT_STAND: u32 = 6;

/// The fault of a `share` line of another number.
pub const WRONG_SHARE: u32 = 9;

/// The fault of a header that isn't that of the first share.
pub const WRONG_HEADER: u32 = 10;

/// The fault of an end of input behind a share that isn't the last.
pub const SHARE_MISSING: u32 = 11;

/// The fault of an entry beyond the most.
pub const TOO_MANY_ENTRIES: u32 = 12;

/// How far a joined text has come.
#[derive(Clone, Copy, Debug, PartialEq, Eq)]
pub struct Stage {
    /// How many shares there are, once a `share` line stood.
    pub shares: Option<u32>,
    /// The number of the last `share` line, 0 before the first.
    pub share: u32,
    /// The first header, once it stood.
    pub header: Option<Header>,
    /// The number of `shape` lines of all shares.
    pub entries: u32,
    /// How far the catalogue of the last share has come, where that one isn't whole.
    pub progress: Option<Progress>,
}

impl Stage {
    /// Before the first line.
    pub fn start() -> Stage
        ensures { result ≡ start }
    {
        Stage {
            shares: None,
            share: 0,
            header: None,
            entries: 0,
            progress: None,
        }
    }

    /// Where a line leads, or its fault.
    pub fn next(self, line: &PartLine) -> Result<Stage, u32>
        requires { IsPartLine line.now }
        ensures { Step self line.now result }
    {
        match line {
            PartLine::Share { i, k } => self.behind_share(*i, *k),
            PartLine::Catalogue { line } => self.behind_line(line),
        }
    }

    /// The fault of an end of input here, if it is one.
    pub fn end_fault(self) -> Option<u32>
        ensures { result ≡ end_fault self }
    {
        if self.progress.is_some() {
            return Some(CANNOT_STAND);
        }
        match self.shares {
            None => Some(CANNOT_STAND),
            Some(shares) => (self.share != shares).then_some(SHARE_MISSING),
        }
    }

    fn behind_share(self, i: u32, k: u32) -> Result<Stage, u32>
        requires { IsShare i k }
        ensures { result ≡ share_step self i k }
    {
        if self.progress.is_some() {
            return Err(CANNOT_STAND);
        }
        if i - 1 != self.share || k != self.shares.unwrap_or(k) {
            return Err(WRONG_SHARE);
        }
        Ok(Stage {
            shares: Some(k),
            share: i,
            header: self.header,
            entries: self.entries,
            progress: Some(Progress::Start),
        })
    }

    fn behind_line(self, line: &Line) -> Result<Stage, u32>
        ensures { CatalogueStep self line.now result }
    {
        if let Line::Header { header } = line {
            return self.behind_header(*header);
        }
        let reached = self.progress.and_then(|progress| progress.next(line));
        let Some(reached) = reached else {
            return Err(CANNOT_STAND);
        };
        self.led(line, reached)
    }

    fn behind_header(self, header: Header) -> Result<Stage, u32>
        ensures { HeaderStep self header result }
    {
        if !may_join(header) {
            return Err(WRONG_HEADER);
        }
        if self.progress != Some(Progress::Start) {
            return Err(CANNOT_STAND);
        }
        if !agrees(self.header, header) {
            return Err(WRONG_HEADER);
        }
        let spot = Spot {
            shapes: 0,
            place: Place::Between,
        };
        Ok(Stage {
            shares: self.shares,
            share: self.share,
            header: Some(header),
            entries: self.entries,
            progress: Some(Progress::Behind {
                brief: header.brief,
                spot,
            }),
        })
    }

    /// Behind a line that leads there in its catalogue.
    fn led(self, line: &Line, reached: Progress) -> Result<Stage, u32>
        ensures { result ≡ led self line.now reached }
    {
        let mut next = Stage {
            shares: self.shares,
            share: self.share,
            header: self.header,
            entries: self.entries,
            progress: Some(reached),
        };
        match line {
            Line::Shape { cells: _ } => {
                next.entries = self.entries.checked_add(1).ok_or(TOO_MANY_ENTRIES)?;
            }
            Line::End { count: _ } => next.progress = None,
            _ => {}
        }
        Ok(next)
    }
}

/// Whether the header is of a full text, with a size for its subject.
fn may_join(header: Header) -> bool
    ensures { result ≡ may_join header }
{
    let sized = match header.subject {
        Subject::Size { n: _ } => true,
        Subject::Given => false,
    };
    !header.brief && sized
}

/// Whether no header came before, or it is the first one again.
fn agrees(first: Option<Header>, header: Header) -> bool
    ensures { IsTrue result ↔ Agrees first header }
{
    match first {
        None => true,
        Some(first) => header == first,
    }
}
