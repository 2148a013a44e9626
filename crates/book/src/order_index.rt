//! Where the orders rest, by their names: from a client and its ClOrdID to a place. A table of slots with open
//! addressing, made once: each name's place is found, put in and taken out by the way from its home slot.
ghost use Rattle.std.specs.Prelude.{◌≡◌, ◌≢◌, ◌<◌, ◌+◌, [], None, Some, length, IfOk};
ghost use Rattle.book.specs.IndexNames.{most_entries, place_of, with_name, without_name};

mod slots;

use slots::{FREE, IndexEntry, SLOTS, Slot, close, reach};
use std::alloc::{AllocError, Global};
use std::marker::Model;

/// Places by the client (1 to 8) and the ClOrdID of the order that rests there. Contracts see the entries, in an order
/// of which they say nothing.
#[derive(Drop)]
pub(crate) struct OrderIndex {
    slots: Vec<Slot>,
}

impl Model for OrderIndex {
    ghost use Rattle.std.specs.Prelude.{List};
    ghost use Rattle.book.specs.declared.order_index.slots.IndexEntry.{IndexEntry};
    ghost use Rattle.book.specs.Slots.{entries_of, IsTable};

    ghost Value = { List IndexEntry };

    ghost view = { λ i. entries_of i.slots.items };

    ghost invariant = { λ i. IsTable i.slots.items };
}

impl OrderIndex {
    /// No name has a place. All room is made here; no other call asks for memory.
    pub(crate) fn new(alloc: Global) -> Result<OrderIndex, AllocError>
        ensures { IfOk result (λ index. index ≡ []) }
    {
        let slots = vec![in alloc; FREE; SLOTS]?;
        Ok(OrderIndex { slots })
    }

    /// The place under a client's name, or `None` where it has none.
    pub(crate) fn find(&self, client: u8, name: u64) -> Option<u32>
        ensures { result ≡ place_of self.now client name }
    {
        let at = reach(&self.slots, client, name);
        let entry = self.slots[at].entry()?;
        Some(entry.place)
    }

    /// Gives a name that has none a place. It may be the last of 4,096.
    pub(crate) fn insert(&mut self, client: u8, name: u64, place: u32)
        requires fresh { place_of self.old client name ≡ None }
        requires room { length self.old < most_entries }
        ensures places { place_of self.new ≡ with_name client name place (place_of self.old) }
        ensures entries { length self.new ≡ length self.old + 1 }
    {
        let at = reach(&self.slots, client, name);
        self.slots[at] = Slot::of(IndexEntry {
            client,
            name,
            place,
        });
    }

    /// Takes a name's place away from it, and answers the place.
    pub(crate) fn remove(&mut self, client: u8, name: u64) -> u32
        requires { place_of self.old client name ≢ None }
        ensures place { place_of self.old client name ≡ Some result }
        ensures places { place_of self.new ≡ without_name client name (place_of self.old) }
        ensures entries { length self.new + 1 ≡ length self.old }
    {
        let at = reach(&self.slots, client, name);
        let entry = self.slots[at].entry().unwrap();
        self.slots[at] = FREE;
        close(&mut self.slots, at);
        entry.place
    }
}
