//! Where a line of an entry leads.
ghost use Rattle.std.specs.Prelude.{◌≡◌};
ghost use Rattle.heesch_grammar.specs.Grammar.{layers, wider, judged, walled, searched, opened, bared, behind};
ghost use Rattle.heesch_grammar.specs.Grammar.{after_shape, after_tiling, after_tile, after_verdict, in_layers};
ghost use Rattle.heesch_grammar.specs.Grammar.{after_coronas, in_proof, after_wall, may_open, open_none, must_open};
ghost use Rattle.heesch_grammar.specs.Grammar.{in_wider, may_search, next};

use crate::place::{AfterProof, Place};
use heesch_cert::Verdict;
use heesch_text::{BareOutcome, Line, Outcome};

impl Place {
    /// Where a line leads that is neither `shape` nor `end`, if it may stand here.
    pub(crate) fn next(self, brief: bool, line: &Line) -> Option<Place>
        ensures { result ≡ next brief self line.now }
    {
        match self {
            Place::Between => None,
            Place::Shape => after_shape(brief, line),
            Place::Tiling => after_tiling(line),
            Place::Lattice | Place::Tile => after_tile(line),
            Place::Search { last } => after_verdict(last, line),
            Place::Layers { more, count, last } => in_layers(more, count, last, line),
            Place::Coronas { count, last } => after_coronas(count, last, line),
            Place::Proof { refuted, after } => in_proof(refuted, after, line),
            Place::Wall { level, last } => after_wall(level, last, line),
            Place::MayOpen => may_open(line),
            Place::OpenNone => open_none(line),
            Place::MustOpen { count } => must_open(count, line),
            Place::Wider { more } => in_wider(more, line),
            Place::Triples => may_search(line),
            Place::Ended => None,
        }
    }
}

/// After `shape`.
fn after_shape(brief: bool, line: &Line) -> Option<Place>
    ensures { result ≡ after_shape brief line.now }
{
    match line {
        Line::Verdict { verdict } => Some(judged(brief, *verdict)),
        _ => None,
    }
}

/// After a verdict.
fn judged(brief: bool, verdict: Verdict) -> Place
    ensures { result ≡ judged brief verdict }
{
    if brief {
        return Place::Between;
    }
    match verdict {
        Verdict::Tiles {
            kind: _,
            domain: _,
            classes: _,
        } => Place::Tiling,
        _ => Place::Search {
            last: verdict.last_number(),
        },
    }
}

/// After the verdict of a tiling.
fn after_tiling(line: &Line) -> Option<Place>
    ensures { result ≡ after_tiling line.now }
{
    match line {
        Line::Lattice { triple: _ } => Some(Place::Lattice),
        _ => None,
    }
}

/// After `lattice`, and after `tile`.
fn after_tile(line: &Line) -> Option<Place>
    ensures { result ≡ after_tile line.now }
{
    match line {
        Line::Tile {
            place: _,
            member: _,
        } => Some(Place::Tile),
        _ => None,
    }
}

/// After any other verdict.
fn after_verdict(last: u32, line: &Line) -> Option<Place>
    ensures { result ≡ after_verdict last line.now }
{
    match line {
        Line::Coronas { count } => Some(layers(*count, *count, last)),
        _ => None,
    }
}

/// Before so many layers of `coronas`.
fn layers(left: u32, count: u32, last: u32) -> Place
    ensures { result ≡ layers left count last }
{
    match left.checked_sub(1) {
        None => Place::Coronas { count, last },
        Some(more) => Place::Layers { more, count, last },
    }
}

/// Before a layer of `coronas`.
fn in_layers(more: u32, count: u32, last: u32, line: &Line) -> Option<Place>
    ensures { result ≡ in_layers more count last line.now }
{
    match line {
        Line::Layer { places: _ } => Some(layers(more, count, last)),
        _ => None,
    }
}

/// After `coronas` and its layers.
fn after_coronas(count: u32, last: u32, line: &Line) -> Option<Place>
    ensures { result ≡ after_coronas count last line.now }
{
    match line {
        Line::Wall { level, outcome } => {
            let above = *level > 0 && *level - 1 == count;
            above.then_some(walled(*level, last, *outcome))
        }
        _ => may_search(line),
    }
}

/// After `wall`.
fn walled(level: u32, last: u32, outcome: Outcome) -> Place
    ensures { result ≡ walled level last outcome }
{
    match outcome {
        Outcome::Refuted => Place::Proof {
            refuted: true,
            after: AfterProof::Wall { level, last },
        },
        Outcome::Spent => Place::Proof {
            refuted: false,
            after: AfterProof::Triples,
        },
        Outcome::Size => Place::Triples,
    }
}

/// In a proof.
fn in_proof(refuted: bool, after: AfterProof, line: &Line) -> Option<Place>
    ensures { result ≡ in_proof refuted after line.now }
{
    match line {
        Line::Learn {
            clause: _,
            hints: _,
        } => Some(Place::Proof { refuted, after }),
        Line::Cut { cut: _ } => Some(Place::Proof { refuted, after }),
        Line::Empty { hints: _ } => refuted.then_some(behind(after)),
        Line::Spent => (!refuted).then_some(behind(after)),
        _ => None,
    }
}

/// After a proof.
fn behind(after: AfterProof) -> Place
    ensures { result ≡ behind after }
{
    match after {
        AfterProof::Wall { level, last } => Place::Wall { level, last },
        AfterProof::MayOpen => Place::MayOpen,
        AfterProof::Triples => Place::Triples,
    }
}

/// After a refuted wall and its proof.
fn after_wall(level: u32, last: u32, line: &Line) -> Option<Place>
    ensures { result ≡ after_wall level last line.now }
{
    match line {
        Line::Bare { level: at, outcome } => bared(level, last, *at, *outcome),
        _ => may_search(line),
    }
}

/// After `bare` with the number `at`, if it may have that number.
fn bared(level: u32, last: u32, at: u32, outcome: BareOutcome) -> Option<Place>
    ensures { result ≡ bared level last at outcome }
{
    match outcome {
        BareOutcome::Same => (at == level).then_some(Place::Triples),
        BareOutcome::Open => Some(opened(at)),
        BareOutcome::Searched { outcome } => (at == last).then_some(searched(outcome)),
    }
}

/// After `bare` with `open`.
fn opened(count: u32) -> Place
    ensures { result ≡ opened count }
{
    if count == 0 {
        return Place::OpenNone;
    }
    Place::MustOpen { count }
}

/// After `bare` with the end of a search of its own.
fn searched(outcome: Outcome) -> Place
    ensures { result ≡ searched outcome }
{
    match outcome {
        Outcome::Refuted => Place::Proof {
            refuted: true,
            after: AfterProof::MayOpen,
        },
        Outcome::Spent => Place::Proof {
            refuted: false,
            after: AfterProof::MayOpen,
        },
        Outcome::Size => Place::MayOpen,
    }
}

/// After a search with holes allowed.
fn may_open(line: &Line) -> Option<Place>
    ensures { result ≡ may_open line.now }
{
    match line {
        Line::Open { count } => Some(wider(*count)),
        _ => may_search(line),
    }
}

/// After `bare 0 open`.
fn open_none(line: &Line) -> Option<Place>
    ensures { result ≡ open_none line.now }
{
    match line {
        Line::Open { count } => (*count == 0).then_some(Place::Triples),
        _ => may_search(line),
    }
}

/// After `bare` with `open` and this number.
fn must_open(count: u32, line: &Line) -> Option<Place>
    ensures { result ≡ must_open count line.now }
{
    match line {
        Line::Open { count: found } => (*found == count).then_some(wider(count)),
        _ => None,
    }
}

/// Before so many layers of `open`.
fn wider(left: u32) -> Place
    ensures { result ≡ wider left }
{
    match left.checked_sub(1) {
        None => Place::Triples,
        Some(more) => Place::Wider { more },
    }
}

/// Before a layer of `open`.
fn in_wider(more: u32, line: &Line) -> Option<Place>
    ensures { result ≡ in_wider more line.now }
{
    match line {
        Line::Layer { places: _ } => Some(wider(more)),
        _ => None,
    }
}

/// Where triples may follow.
fn may_search(line: &Line) -> Option<Place>
    ensures { result ≡ may_search line.now }
{
    match line {
        Line::Triple { triple: _, refuted } => Some(Place::Proof {
            refuted: *refuted,
            after: AfterProof::Triples,
        }),
        _ => None,
    }
}
