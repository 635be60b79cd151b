//! The clauses that a literal may watch.
ghost use Rattle.std.specs.Prelude.{◌≡◌, ◌<◌, [], ◌∷◌, ◌++◌, length, IfOk, OnOk, OnErr};
ghost use Rattle.heesch_trail.specs.Watches.{IsWithout};

use crate::entry::Entry;
use heesch_io::NoMemory;
use std::alloc::Global;
use std::marker::Model;

/// Entries of clauses.
#[derive(Drop)]
pub struct WatchList {
    entries: Vec<Entry>,
}

impl Model for WatchList {
    ghost use Rattle.std.specs.Prelude.{List};
    ghost use Rattle.heesch_trail.specs.declared.entry.Entry.{Entry};

    ghost Value = { List Entry };

    ghost view = { λ l. l.entries.items };
}

impl WatchList {
    /// No entries, with room for so many.
    pub fn with_room(alloc: Global, room: usize) -> Result<WatchList, NoMemory>
        ensures { IfOk result (λ list. list ≡ []) }
    {
        Ok(WatchList {
            entries: Vec::with_capacity(alloc, room)?,
        })
    }

    /// The entries. It takes no memory.
    pub fn as_slice(&self) -> &[Entry]
        ensures { result.now ≡ self.now }
    {
        self.entries.as_slice()
    }

    /// The entry stands last, or nothing has changed. The cost is one write, as an average over many calls.
    pub fn push(&mut self, entry: Entry) -> Result<(), NoMemory>
        ensures ok { OnOk result (self.new ≡ self.old ++ entry ∷ []) }
        ensures err { OnErr result (self.new ≡ self.old) }
    {
        self.entries.push(entry)?;
        Ok(())
    }

    /// The entry at this place is gone, and the last one stands there. The cost is one write.
    pub fn remove(&mut self, place: usize)
        requires { place < length self.old }
        ensures { IsWithout place self.old self.new }
    {
        let _ = self.entries.swap_remove(place);
    }
}
