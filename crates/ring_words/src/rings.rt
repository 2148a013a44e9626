//! The table under its rule: each message goes through its words from a gateway to the processor, and each output back.
ghost use Rattle.std.specs.Prelude.{◌≡◌, ◌<◌, ◌≤◌};
ghost use Rattle.ring_words.specs.Places.{table_words};

use crate::report::Slot;
use crate::setup::Setup;
use crate::view::View;
use atomic_table::{Table, TableRule};
use std::alloc::Global;
use std::marker::{Model, PhantomData};
use venue_model::Logic;

/// The rule of the table. No value of it is made.
pub struct Ring<L> {
    marker: PhantomData<L>,
}

impl<L: Logic> TableRule<Slot, View<L>, Setup<L>> for Ring<L> {
    ghost use Rattle.ring_words.specs.Terms.{terms_of};
    ghost use Rattle.ring_words.specs.Rule.{Lawful, first_view};

    ghost holds = { λ k. Lawful (terms_of L.reads L.outputs L.text L.nothing L.grows k) };

    ghost first = { λ k. first_view (terms_of L.reads L.outputs L.text L.nothing L.grows k) };
}

/// Both rings: `N` input rows and `M` output rows, powers of two from 2 to 4,096, for `G` gateways, 1 to 8.
#[derive(Drop)]
pub struct Rings<L: Logic, const N: usize, const M: usize, const G: usize> {
    pub(crate) table: Table<Slot, View<L>, Setup<L>, Ring<L>, Global>,
    ghost rows: { (table.shared.key.rows ≡ N) × (table.shared.key.output_rows ≡ M) × (table.shared.key.gateways ≡ G) },
    ghost words: { (table.shared.table_id.words ≡ table_words N M)
        × (0 < N) × (N ≤ 4096) × (0 < M) × (M ≤ 4096) × (1 ≤ G) × (G ≤ 8) },
    ghost slots: { table.shared.table_id.slots ≡ M },
}

impl<L: Logic, const N: usize, const M: usize, const G: usize> Model for Rings<L, N, M, G> {
    ghost use Rattle.ring_words.specs.At.{Opened};

    ghost Value = { Opened L };

    ghost view = { λ r. record {
      table = r.table.shared.table_id;
      logic = r.table.shared.key.logic;
      base = r.table.shared.key.base.entries;
      base_outputs = r.table.shared.key.base_outputs;
    } };
}

impl<L: Logic, const N: usize, const M: usize, const G: usize> Rings<L, N, M, G> {
    ghost use Rattle.std.specs.Prelude.{◌≡◌, ◌≤◌};

    /// How many rows the input ring has.
    pub fn rows(&self) -> u64
        ensures value { result ≡ N }
        ensures range { (1 ≤ result) × (result ≤ 4096) }
    {
        let _table = &self.table;
        N as u64
    }

    /// How many rows the output ring has.
    pub fn output_rows(&self) -> u64
        ensures value { result ≡ M }
        ensures range { (1 ≤ result) × (result ≤ 4096) }
    {
        let _table = &self.table;
        M as u64
    }

    /// How many gateways there are.
    pub fn gateways(&self) -> u64
        ensures value { result ≡ G }
        ensures range { (1 ≤ result) × (result ≤ 8) }
    {
        let _table = &self.table;
        G as u64
    }
}
