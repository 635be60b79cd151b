//! The wants that hold, and which of their candidates watch them.
use heesch_io::NoMemory;
use std::alloc::Global;

/// Since when a want holds.
#[derive(Debug, Clone, Copy, PartialEq, Eq)]
pub(crate) enum Owner {
    /// It doesn't.
    Nobody,
    /// From the start.
    Start,
    /// Since this variable, which asks for it, was chosen.
    Variable(u32),
}

/// Two candidates that watch a want; 0 stands for none.
#[derive(Debug, Clone, Copy)]
pub(crate) struct Watching {
    pub one: u32,
    pub other: u32,
}

impl Watching {
    /// The candidate beside this one, where it is one of the two.
    pub fn beside(self, candidate: u32) -> Option<u32> {
        if self.one == candidate {
            Some(self.other)
        } else if self.other == candidate {
            Some(self.one)
        } else {
            None
        }
    }
}

/// By want its owner and its watching candidates; by variable the wants that it watches, and maybe others, which are
/// dropped when met; by list of members one of them that was chosen.
#[derive(Drop)]
pub(crate) struct Wants {
    owners: Vec<Owner>,
    /// The wants that hold, in the order of their owners.
    active: Vec<u32>,
    watching: Vec<Watching>,
    watched: Vec<Vec<u32>>,
    chosen: Vec<u32>,
}

/// So many empty lists.
fn empty_lists(alloc: Global, count: usize) -> Result<Vec<Vec<u32>>, NoMemory> {
    let mut lists = Vec::with_capacity(alloc, count)?;
    for _ in 0..count {
        lists.push(Vec::new(alloc)).map_err(|_| NoMemory)?;
    }
    Ok(lists)
}

impl Wants {
    /// No want holds. The cost is the number of the wants, of the variables and of the lists of members.
    pub fn new(alloc: Global, wants: usize, vars: u32, lists: usize) -> Result<Wants, NoMemory> {
        let nobody = Watching { one: 0, other: 0 };
        Ok(Wants {
            owners: vec![in alloc; Owner::Nobody; wants]?,
            active: Vec::new(alloc),
            watching: vec![in alloc; nobody; wants]?,
            watched: empty_lists(alloc, vars as usize + 1)?,
            chosen: vec![in alloc; 0u32; lists]?,
        })
    }

    /// There is room for so many wants and lists of members, and those that are new don't hold. The cost is how many
    /// are new.
    pub fn make_room(&mut self, wants: usize, lists: usize) -> Result<(), NoMemory> {
        for _ in self.owners.len()..wants {
            self.watching.push(Watching { one: 0, other: 0 })?;
            self.owners.push(Owner::Nobody)?;
        }
        for _ in self.chosen.len()..lists {
            self.chosen.push(0)?;
        }
        Ok(())
    }

    /// Since when the want holds.
    pub fn owner(&self, want: u32) -> Owner {
        self.owners
            .get(want as usize)
            .copied()
            .unwrap_or(Owner::Nobody)
    }

    /// How many wants hold.
    pub fn count(&self) -> usize {
        self.active.len()
    }

    /// The want at a place among those that hold.
    pub fn at(&self, place: usize) -> Option<u32> {
        self.active.get(place).copied()
    }

    /// The want holds.
    pub fn begin(&mut self, want: u32, owner: Owner) -> Result<(), NoMemory> {
        self.active.push(want)?;
        if let Some(place) = self.owners.get_mut(want as usize) {
            *place = owner;
        }
        Ok(())
    }

    /// The wants that hold since this variable was chosen hold no more. They are the last ones.
    pub fn release(&mut self, variable: u32) {
        for _ in 0..self.active.len() {
            let Some(want) = self.active.last().copied() else {
                return;
            };
            if self.owner(want) != Owner::Variable(variable) {
                return;
            }
            let _ = self.active.pop();
            if let Some(owner) = self.owners.get_mut(want as usize) {
                *owner = Owner::Nobody;
            }
        }
    }

    /// The candidates that watch the want.
    pub fn watching(&self, want: u32) -> Watching {
        self.watching
            .get(want as usize)
            .copied()
            .unwrap_or(Watching { one: 0, other: 0 })
    }

    fn enlist(&mut self, candidate: u32, want: u32) -> Result<(), NoMemory> {
        if candidate != 0 {
            if let Some(list) = self.watched.get_mut(candidate as usize) {
                list.push(want)?;
            }
        }
        Ok(())
    }

    /// These candidates watch the want, in place of those before.
    pub fn watch(&mut self, want: u32, pair: Watching) -> Result<(), NoMemory> {
        let before = self.watching(want);
        if before.beside(pair.one).is_none() {
            self.enlist(pair.one, want)?;
        }
        if before.beside(pair.other).is_none() {
            self.enlist(pair.other, want)?;
        }
        if let Some(place) = self.watching.get_mut(want as usize) {
            *place = pair;
        }
        Ok(())
    }

    /// How many wants a variable may watch.
    pub fn watched_count(&self, variable: u32) -> usize {
        match self.watched.get(variable as usize) {
            None => 0,
            Some(list) => list.len(),
        }
    }

    /// The want at a place of those that a variable may watch.
    pub fn watched_at(&self, variable: u32, place: usize) -> Option<u32> {
        self.watched.get(variable as usize)?.get(place).copied()
    }

    /// The variable doesn't watch the want at this place. The last one stands there then.
    pub fn unlist(&mut self, variable: u32, place: usize) {
        if let Some(list) = self.watched.get_mut(variable as usize) {
            if place < list.len() {
                let _ = list.swap_remove(place);
            }
        }
    }

    /// A member of a list that was chosen when it was noted last, or 0.
    pub fn chosen(&self, list: u32) -> u32 {
        self.chosen.get(list as usize).copied().unwrap_or(0)
    }

    /// The member of the list is chosen.
    pub fn note_chosen(&mut self, list: u32, member: u32) {
        if let Some(place) = self.chosen.get_mut(list as usize) {
            *place = member;
        }
    }
}
