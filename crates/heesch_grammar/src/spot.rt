//! How far a catalogue has come.
ghost use Rattle.std.specs.Prelude.{◌≡◌};
ghost use Rattle.heesch_grammar.specs.Grammar.{step};

use crate::place::Place;
use heesch_text::Line;

/// How far a catalogue has come after its header: the number of `shape` lines so far, and what stands last.
#[derive(Clone, Copy, Debug, PartialEq, Eq)]
pub struct Spot {
    pub shapes: u32,
    pub place: Place,
}

impl Spot {
    /// The spot with this place.
    fn at(self, place: Place) -> Spot
        ensures { result ≡ record { shapes = self.shapes; place = place } }
    {
        Spot {
            shapes: self.shapes,
            place,
        }
    }

    /// Where a line leads, in a brief or a full text. None exactly where it may not stand here. It takes no memory.
    pub fn step(self, brief: bool, line: &Line) -> Option<Spot>
        ensures { result ≡ step brief self line.now }
    {
        match line {
            Line::Shape { cells: _ } => {
                let next = Spot {
                    shapes: self.shapes.checked_add(1)?,
                    place: Place::Shape,
                };
                self.place.is_whole().then_some(next)
            }
            Line::End { count } => {
                let all = *count == self.shapes;
                (self.place.is_whole() && all).then_some(self.at(Place::Ended))
            }
            _ => self.place.next(brief, line).map(|place| self.at(place)),
        }
    }
}
