//! The slots of the table: the way from a name's home to its entry, and the closing of the gap that an entry leaves.
ghost use Rattle.std.specs.Prelude.{◌≡◌, ◌<◌, ◌≤◌, Some, length, true, false};
ghost use Rattle.book.specs.IndexNames.{place_of};
ghost use Rattle.book.specs.Slots.{at, ends_way, home, home_of, slot_from, steps_to, entries_of, IsTable, HasGap, WayEnds};

use std::marker::Model;

/// How many slots there are: twice as many as entries at most.
pub(crate) const SLOTS: usize = 8192;

/// An odd number whose multiples spread over the upper bits: 2^64 divided by the golden ratio.
const SPREAD: u64 = 0x9E37_79B9_7F4A_7C15;

/// The slots' number is 2 to the 13: a product of 64 bits has its upper 13 left when these are gone.
const LOWER: u64 = 1 << 51;

/// A client's name for one of its orders (ClOrdID), and the place where the order rests. Contracts see an index as a
/// list of these.
#[derive(Clone, Copy)]
pub(crate) struct IndexEntry {
    pub(crate) client: u8,
    pub(crate) name: u64,
    pub(crate) place: u32,
}

/// What stands in a slot, in sixteen bytes: an entry, or nothing. Contracts see an option.
#[derive(Clone, Copy)]
pub(crate) struct Slot {
    name: u64,
    place: u32,
    client: u8,
    is_taken: bool,
}

impl Model for Slot {
    ghost use Rattle.std.specs.Prelude.{Option};
    ghost use Rattle.book.specs.declared.order_index.slots.IndexEntry.{IndexEntry};
    ghost use Rattle.book.specs.SlotParts.{entry_in, IsKept, name_of, place_in, client_of, some_in, name-back, place-back, client-back, taken-back};

    ghost Value = { Option IndexEntry };

    ghost view = { λ s. entry_in s.is_taken s.client s.name s.place };

    ghost invariant = { λ s. IsKept s.is_taken s.client s.name s.place };

    ghost inverse = { λ e. record { name = name_of e; place = place_in e; client = client_of e; is_taken = some_in e } };

    ghost inverse_ok = { λ s keeps i. record {
      name = name-back s.is_taken s.client s.name s.place keeps i;
      place = place-back s.is_taken s.client s.name s.place keeps i;
      client = client-back s.is_taken s.client s.name s.place keeps i;
      is_taken = taken-back s.is_taken s.client s.name s.place i;
    } };
}

/// A slot where nothing stands.
pub(crate) const FREE: Slot = Slot {
    name: 0,
    place: 0,
    client: 0,
    is_taken: false,
};

impl Slot {
    /// The slot where an entry stands.
    pub(crate) fn of(entry: IndexEntry) -> Slot
        ensures { result ≡ Some entry }
    {
        Slot {
            name: entry.name,
            place: entry.place,
            client: entry.client,
            is_taken: true,
        }
    }

    /// What stands there.
    pub(crate) fn entry(&self) -> Option<IndexEntry>
        ensures { result ≡ self.now }
    {
        if self.is_taken {
            Some(IndexEntry {
                client: self.client,
                name: self.name,
                place: self.place,
            })
        } else {
            None
        }
    }
}

/// Where the way to a name begins.
#[tactic(auto, unfolding(crate::specs::Slots::home))]
fn home(client: u8, name: u64) -> usize
    ensures is { result ≡ home client name }
    ensures within { result < 8192 }
{
    let both = name.wrapping_mul(8).wrapping_add(client as u64);
    (both.wrapping_mul(SPREAD) / LOWER) as usize
}

/// The slot so many steps on.
#[tactic(auto, unfolding(crate::specs::Slots::slot_from))]
fn slot_from(slot: usize, steps: usize) -> usize
    requires slot { slot < 8192 }
    requires steps { steps < 8192 }
    ensures is { result ≡ slot_from slot steps }
    ensures within { result < 8192 }
{
    (slot + steps) % SLOTS
}

/// How many steps it is on to another slot.
#[tactic(auto, unfolding(crate::specs::Slots::steps_to))]
fn steps_to(slot: usize, other: usize) -> usize
    requires slot { slot < 8192 }
    requires other { other < 8192 }
    ensures { result ≡ steps_to slot other }
{
    (other + SLOTS - slot) % SLOTS
}

/// Whether the way to a name ends here: at a slot that is free, or has the name's entry.
fn ends_way(slot: &Slot, client: u8, name: u64) -> bool
    ensures { result ≡ ends_way client name slot.now }
{
    match slot.entry() {
        Some(entry) => entry.client == client && entry.name == name,
        None => true,
    }
}

/// The slot of a name's entry, or else the free one where the way from its home ends.
pub(crate) fn reach(slots: &[Slot], client: u8, name: u64) -> usize
    requires { IsTable slots.now }
    ensures within { result < length slots.now }
    ensures way { WayEnds (at slots.now) client name result }
{
    let home = home(client, name);
    for steps in 0..SLOTS {
        let slot = slot_from(home, steps);
        if ends_way(&slots[slot], client, name) {
            return slot;
        }
    }
    unreachable!()
}

/// Closes the gap that an entry left: entries farther on whose way leads over it move back into it, each with a gap of
/// its own, up to a free slot.
pub(crate) fn close(slots: &mut Vec<Slot>, start: usize)
    requires { HasGap slots.old.items start start 1 }
    ensures table { IsTable slots.new.items }
    ensures places { place_of (entries_of slots.new.items) ≡ place_of (entries_of slots.old.items) }
    ensures entries { length (entries_of slots.new.items) ≡ length (entries_of slots.old.items) }
{
    let mut gap = start;
    for steps in 1..SLOTS {
        let slot = slot_from(start, steps);
        let Some(entry) = slots[slot].entry() else {
            return;
        };
        if steps_to(gap, slot) <= steps_to(home(entry.client, entry.name), slot) {
            slots[gap] = Slot::of(entry);
            slots[slot] = FREE;
            gap = slot;
        }
    }
}
