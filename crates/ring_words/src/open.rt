//! How the rings begin: their words, the first seat, and the seats that it is split into.
ghost use Rattle.std.specs.Prelude.{◌≡◌, ◌≢◌, ℕ, suc, ◌+◌, ◌-◌, ◌*◌, ◌^◌, ◌<◌, ◌≤◌, [], ◌∷◌, length, slice_index_or, vec_len, IfOk, IsErrOf, IsTrue, IsFalse, IsOk, ◌&&◌};
ghost use Rattle.ring_words.specs.Rule.{gateways, newcomer, processor, opening_word, view_of};
ghost use Rattle.ring_words.specs.declared.view.Role.TheVariants.{Gateway, Marshal};
ghost use Rattle.ring_words.specs.Seats.{person, others_stay, apart};
ghost use Rattle.ring_words.specs.Sizes.{ring_size};
ghost use Rattle.ring_words.specs.OpeningNumber.{opening_number};
ghost use Rattle.ring_words.specs.At.{at, seat_of};
ghost use Rattle.ring_words.specs.Crew.{AreNewGateways, AreNew};

use crate::places::{FIRST_ROW, MARSHALLED, OUTPUT_ROW_WORDS, OUTPUT_WORDS_END, ROW_WORDS};
use crate::plays::Apart;
use crate::report::{Slot, blank_box, blank_boxes};
use crate::rings::Rings;
use crate::seats::Seats;
use crate::seats::gateway::GatewaySeat;
use crate::seats::marshaller::MarshalSeat;
use crate::seats::processor::{ProcessSeat, no_values};
use crate::seats::reader::{Reader, ReaderSeat};
use crate::setup::Setup;
use crate::view::View;
use atomic_table::{Seat, Table};
use std::alloc::{AllocError, Global};
use std::marker::PhantomData;
use thiserror::Error;
use venue_model::{Entry, Logic, Past};

/// Why rings can't be opened.
#[derive(Clone, Copy, Debug, PartialEq, Eq, Error)]
pub enum OpenError {
    /// 21: the number of rows of a ring isn't a power of two from 2 to 4,096.
    #[error("not a power of two")]
    NotPowerOfTwo = 21,
    /// 22: memory was refused.
    #[error("no memory")]
    Memory = 22,
}

impl OpenError {
    /// Its number, 21 or 22.
    pub fn number(self) -> u8
        ensures { result ≡ opening_number self }
    {
        self as u8
    }
}

/// Whether a ring may have this many rows.
fn is_ring_size(rows: usize) -> bool
    ensures value { result ≡ ring_size rows }
    ensures bounds { IsTrue result → (2 ≤ rows) × (rows ≤ 4096) }
{
    rows.is_power_of_two() && rows >= 2 && rows <= 4096
}

/// The word at this place at the start.
fn word_at_start(place: usize, start: u64, base_outputs: u64) -> u64
    ensures { result ≡ opening_word start base_outputs place }
{
    if place < MARSHALLED {
        start
    } else if place < OUTPUT_WORDS_END {
        base_outputs
    } else {
        0
    }
}

fn words_at_start(
    alloc: Global,
    count: usize,
    start: u64,
    base_outputs: u64,
) -> Result<Vec<u64>, AllocError>
    ensures count { IfOk result (λ words. vec_len words ≡ count) }
    ensures words { IfOk result (λ words. (k : ℕ) → k < count → slice_index_or words.items k 0 ≡ opening_word start base_outputs k) }
{
    let mut words = Vec::with_capacity(alloc, count)?;
    for place in 0..count {
        words.push(word_at_start(place, start, base_outputs))?;
    }
    Ok(words)
}

impl<L: Logic, const N: usize, const M: usize, const G: usize> Rings<L, N, M, G> {
    /// Splits the seat of the first person off the first seat.
    fn split(&self, first: &mut Seat<Slot, View<L>>) -> Seat<Slot, View<L>>
        requires table { first.old.table_id ≡ self.now.table }
        requires bare { first.old.me.1 ≡ [] }
        requires some { 0 < length first.old.me.0.people }
        ensures first { (first.new.table_id ≡ first.old.table_id) × (first.new.me ≡ (others_stay first.old.me.0, [])) }
        ensures seat { (result.table_id ≡ first.old.table_id) × (result.me ≡ (apart first.old.me.0, [])) }
    {
        self.table.shared.split_seat::<Apart>(first)
    }

    /// Splits the processor's seat off the first one.
    fn process_seat(
        &self,
        first: &mut Seat<Slot, View<L>>,
        count: u64,
        base_outputs: u64,
        spare: Slot,
    ) -> ProcessSeat<L>
        requires table { first.old.table_id ≡ self.now.table }
        requires bare { first.old.me.1 ≡ [] }
        requires some { 0 < length first.old.me.0.people }
        requires head { person first.old.me.0 ≡ processor self.now.base base_outputs }
        requires count { count ≡ length self.now.base }
        requires small { count ≤ 2 ^ 48 }
        ensures first { (first.new.table_id ≡ first.old.table_id) × (first.new.me ≡ (others_stay first.old.me.0, [])) }
        ensures seat { result ≡ seat_of first.old.table_id first.old.me.0 }
    {
        ProcessSeat {
            seat: self.split(first),
            known: count,
            sequence: count,
            last_unmarshalled: 0,
            published: base_outputs,
            taken: no_values(),
            spare,
        }
    }

    /// Splits the marshaller's seat off the first one.
    fn marshal_seat(
        &self,
        first: &mut Seat<Slot, View<L>>,
        base_outputs: u64,
        spare: Slot,
    ) -> MarshalSeat<L>
        requires table { first.old.table_id ≡ self.now.table }
        requires bare { first.old.me.1 ≡ [] }
        requires some { 0 < length first.old.me.0.people }
        requires head { person first.old.me.0 ≡ newcomer Marshal self.now.base base_outputs }
        ensures first { (first.new.table_id ≡ first.old.table_id) × (first.new.me ≡ (others_stay first.old.me.0, [])) }
        ensures seat { result ≡ seat_of first.old.table_id first.old.me.0 }
    {
        MarshalSeat {
            seat: self.split(first),
            sequence: base_outputs,
            spare,
        }
    }

    /// Splits the seat of a stage that reads what gateways publish off the first one.
    fn reader_seat<R: Reader>(
        &self,
        first: &mut Seat<Slot, View<L>>,
        count: u64,
    ) -> ReaderSeat<L, R>
        requires table { first.old.table_id ≡ self.now.table }
        requires bare { first.old.me.1 ≡ [] }
        requires some { 0 < length first.old.me.0.people }
        requires head { person first.old.me.0 ≡ newcomer R.role self.now.base count }
        requires count { count ≡ length self.now.base }
        requires small { count ≤ 2 ^ 48 }
        ensures first { (first.new.table_id ≡ first.old.table_id) × (first.new.me ≡ (others_stay first.old.me.0, [])) }
        ensures seat { result ≡ seat_of first.old.table_id first.old.me.0 }
    {
        ReaderSeat {
            seat: self.split(first),
            known: count,
            sequence: count,
            marker: PhantomData,
        }
    }

    /// Splits the seat of the next gateway off the first one, which has those of `left` gateways.
    fn gateway_seat(
        &self,
        first: &mut Seat<Slot, View<L>>,
        number: u64,
        left: u64,
        base_outputs: u64,
    ) -> GatewaySeat<L>
        requires first { (first.old.table_id ≡ self.now.table) × (first.old.me.1 ≡ []) }
        requires people { first.old.me.0 ≡ view_of self.now.logic self.now.base (gateways number left self.now.base self.now.base_outputs) }
        requires some { 0 < left }
        requires given { base_outputs ≡ self.now.base_outputs }
        requires number { (1 ≤ number) × (number ≤ 8) }
        ensures first { (first.new.table_id ≡ first.old.table_id) × (first.new.me.1 ≡ []) }
        ensures people { first.new.me.0 ≡ view_of self.now.logic self.now.base (gateways (number + 1) (left - 1) self.now.base self.now.base_outputs) }
        ensures seat { result ≡ at self.now (newcomer (Gateway number) self.now.base self.now.base_outputs) }
    {
        GatewaySeat {
            seat: self.split(first),
            number,
            taken: base_outputs,
            processed: None,
        }
    }

    /// Splits the first seat into those of all gateways.
    fn gateway_seats(
        &self,
        alloc: Global,
        mut first: Seat<Slot, View<L>>,
        base_outputs: u64,
    ) -> Result<Vec<GatewaySeat<L>>, AllocError>
        requires table { first.table_id ≡ self.now.table }
        requires bare { first.me.1 ≡ [] }
        requires people { first.me.0 ≡ view_of self.now.logic self.now.base (gateways 1 G self.now.base self.now.base_outputs) }
        requires given { base_outputs ≡ self.now.base_outputs }
        requires few { G ≤ 8 }
        ensures count { IfOk result (λ seats. vec_len seats ≡ G) }
        ensures seats { IfOk result (λ seats. AreNewGateways self.now seats.items) }
    {
        let mut seats = Vec::with_capacity(alloc, G)?;
        let mut number = 1;
        let mut left = G as u64;
        while left > 0 {
            let seat = self.gateway_seat(&mut first, number, left, base_outputs);
            seats.push(seat)?;
            number += 1;
            left -= 1;
        }
        Ok(seats)
    }
}

impl<L: Logic + Drop, const N: usize, const M: usize, const G: usize> Rings<L, N, M, G> {
    /// Rings of `N` and `M` rows for `G` gateways, behind this history, whose number of outputs is given. All input
    /// words begin at its length, all output words at `given`, and all rows are empty. Each row of the output ring has
    /// a box in its slot, and processor and marshaller have one each to exchange.
    pub fn open(
        alloc: Global,
        logic: L,
        base: &Vec<Entry>,
        given: u64,
    ) -> Result<(Rings<L, N, M, G>, Seats<L>), OpenError>
        requires gateways { (1 ≤ G) × (G ≤ 8) }
        requires long { vec_len base.now ≤ 2 ^ 48 }
        requires given { given ≡ length (L.outputs logic base.now.items) }
        ensures sizes { IsOk result → IsTrue (ring_size N && ring_size M) }
        ensures bad { IsErrOf result OpenError.NotPowerOfTwo → IsFalse (ring_size N && ring_size M) }
        ensures memory { IsErrOf result OpenError.Memory → IsTrue (ring_size N && ring_size M) }
        ensures opened { IfOk result (λ r. (r.0.logic ≡ logic) × (r.0.base ≡ base.now.items) × (r.0.base_outputs ≡ given)) }
        ensures seats { IfOk result (λ r. AreNew G r.0 r.1) }
    {
        Self::open_behind(alloc, logic, Past::of(base), base.len() as u64, given)
    }

    /// The same behind a history whose entries are gone: there were `count` of them, at most 2^48, and `given` outputs.
    pub fn open_behind(
        alloc: Global,
        logic: L,
        past: Past,
        count: u64,
        given: u64,
    ) -> Result<(Rings<L, N, M, G>, Seats<L>), OpenError> // promise 5
        requires gateways { (1 ≤ G) × (G ≤ 8) }
        requires long { (count ≡ length past.entries) × (count ≤ 2 ^ 48) }
        requires given { given ≡ length (L.outputs logic past.entries) }
        ensures sizes { IsOk result → IsTrue (ring_size N && ring_size M) }
        ensures bad { IsErrOf result OpenError.NotPowerOfTwo → IsFalse (ring_size N && ring_size M) }
        ensures memory { IsErrOf result OpenError.Memory → IsTrue (ring_size N && ring_size M) }
        ensures opened { IfOk result (λ r. (r.0.logic ≡ logic) × (r.0.base ≡ past.entries) × (r.0.base_outputs ≡ given)) }
        ensures seats { IfOk result (λ r. AreNew G r.0 r.1) }
    {
        if !is_ring_size(N) || !is_ring_size(M) {
            return Err(OpenError::NotPowerOfTwo);
        }
        let places = FIRST_ROW + ROW_WORDS * N + OUTPUT_ROW_WORDS * M;
        let Ok(words) = words_at_start(alloc, places, count, given) else {
            return Err(OpenError::Memory);
        };
        let setup = Setup {
            rows: N,
            output_rows: M,
            gateways: G,
            logic,
            base: past,
            base_outputs: given,
        };
        let Ok(boxes) = blank_boxes(alloc, M) else {
            return Err(OpenError::Memory);
        };
        let Ok(put) = blank_box(alloc) else {
            return Err(OpenError::Memory);
        };
        let Ok(copied) = blank_box(alloc) else {
            return Err(OpenError::Memory);
        };
        let Ok((table, mut first)) = Table::new(alloc, words.as_slice(), boxes, &setup) else {
            return Err(OpenError::Memory);
        };
        let rings = Rings { table };
        let process = rings.process_seat(&mut first, count, given, put);
        let unmarshal = rings.reader_seat(&mut first, count);
        let journal = rings.reader_seat(&mut first, count);
        let marshal = rings.marshal_seat(&mut first, given, copied);
        let Ok(gateways) = rings.gateway_seats(alloc, first, given) else {
            return Err(OpenError::Memory);
        };
        Ok((
            rings,
            Seats {
                gateways,
                unmarshal,
                journal,
                process,
                marshal,
            },
        ))
    }
}
