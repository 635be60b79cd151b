//! Wants whose candidates are found by steps between slots, and are listed where the want is first looked at.
ghost use Rattle.std.specs.Prelude.{◌≡◌};

use heesch_io::NoMemory;
use std::alloc::Global;

/// From where the steps of a variable go: a slot of a layer, whose number may wrap, and which steps they are.
#[derive(Debug, Clone, Copy)]
pub struct Start {
    /// The layer of the slots.
    pub layer: u32,
    /// The slot from which the steps count.
    pub slot: u32,
    /// The kind of the steps.
    pub kind: u32,
}

/// Layers of slots, each slot with a variable or 0; for each kind the steps from a slot to others; and by variable
/// from where its steps go, if it asks for one of those in the slots to which they lead.
#[derive(Drop)]
pub struct Slots {
    layers: Vec<Vec<u32>>,
    steps: Vec<Vec<u32>>,
    starts: Vec<Option<Start>>,
    /// By variable, the number of its want and one more, or 0 where that wasn't made yet.
    wants: Vec<u32>,
    alloc: Global,
}

/// The slots to which the steps of a variable lead.
#[derive(Clone, Copy)]
pub struct Reach<'a> {
    slots: &'a [u32],
    steps: &'a [u32],
    first: u32,
}

impl<'a> Reach<'a> {
    /// How many there are. It takes no memory.
    pub fn len(&self) -> usize {
        self.steps.len()
    }

    /// The variable in the slot at a place, from 0, or 0 where there is none. The cost is a look-up.
    pub fn at(&self, place: usize) -> u32 {
        match self.steps.get(place) {
            None => 0,
            Some(step) => {
                let slot = self.first.wrapping_add(*step);
                self.slots.get(slot as usize).copied().unwrap_or(0)
            }
        }
    }
}

/// The index of a variable, or one that no list has.
fn index_of(variable: u32) -> usize {
    (variable as usize).wrapping_sub(1)
}

impl Slots {
    /// No layer, and no variable that asks, with these steps by kind: how far slots lie behind the first, by numbers
    /// that may wrap.
    pub fn new(alloc: Global, steps: Vec<Vec<u32>>) -> Slots {
        Slots {
            layers: Vec::new(alloc),
            steps,
            starts: Vec::new(alloc),
            wants: Vec::new(alloc),
            alloc,
        }
    }

    /// One more layer, whose slots have these variables.
    pub fn add_layer(&mut self, slots: Vec<u32>) -> Result<(), NoMemory> {
        self.layers.push(slots).map_err(|_| NoMemory)
    }

    /// The next variable in number order, from 1, asks from this start, or for nothing.
    pub fn start(&mut self, start: Option<Start>) -> Result<(), NoMemory> {
        self.wants.push(0)?;
        self.starts.push(start)?;
        Ok(())
    }

    /// Whether the variable asks.
    pub(crate) fn asks(&self, variable: u32) -> bool {
        matches!(self.starts.get(index_of(variable)), Some(Some(_)))
    }

    /// The slots to which the variable's steps lead; none where it doesn't ask.
    pub(crate) fn reach(&self, variable: u32) -> Reach<'_> {
        let none = Reach {
            slots: &[],
            steps: &[],
            first: 0,
        };
        let Some(Some(start)) = self.starts.get(index_of(variable)) else {
            return none;
        };
        match (
            self.layers.get(start.layer as usize),
            self.steps.get(start.kind as usize),
        ) {
            (Some(slots), Some(steps)) => Reach {
                slots,
                steps,
                first: start.slot,
            },
            _ => none,
        }
    }

    /// The variables that the variable asks for, in the order of its steps.
    pub(crate) fn candidates(&self, variable: u32) -> Result<Vec<u32>, NoMemory> {
        let reach = self.reach(variable);
        let mut candidates = Vec::new(self.alloc);
        for place in 0..reach.len() {
            let candidate = reach.at(place);
            if candidate != 0 {
                candidates.push(candidate)?;
            }
        }
        Ok(candidates)
    }

    /// The want of the variable, where it was made.
    pub(crate) fn want(&self, variable: u32) -> Option<u32> {
        self.wants
            .get(index_of(variable))
            .copied()
            .unwrap_or(0)
            .checked_sub(1)
    }

    /// The want of the variable is the one of this number.
    pub(crate) fn note(&mut self, variable: u32, want: u32) {
        if let Some(place) = self.wants.get_mut(index_of(variable)) {
            *place = want.saturating_add(1);
        }
    }
}
