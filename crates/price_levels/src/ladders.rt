//! The levels in ladders: those of each symbol and side of the venue in a list of their own, which is searched and
//! moved alone. Contracts see which level stands where, in the order of all.
ghost use Rattle.std.specs.Prelude.{◌≡◌, ◌↔◌, ◌<◌, ◌≤◌, ◌+◌, ◌*◌, ◌^◌, List, [], true, false, length, take, drop, get_or, slice_set, IfOk, IfSome};
ghost use Rattle.std.specs.Vec.{vec_len, vec_capacity};
ghost use Rattle.std.specs.List.{AllByRecursion, insert};
ghost use Rattle.venue_model.specs.Orders.{opposite};
ghost use Rattle.price_levels.specs.Keys.{key_with, key_before, before_side, InOrder};
ghost use Rattle.price_levels.specs.Arena.{holds, first_in, crossed_left, levels_with};
ghost use Rattle.price_levels.specs.declared.ladders.Fence.{Fence};
ghost use Rattle.price_levels.specs.Ladders.{BelongsToHome, IsRung, IsOn, IsHome, IsHomeOf, IsEmpty, all, rung_number};

use crate::finds::{crossed_left, first_in};
use crate::keys::{Key, Level, comes_before_side};
use crate::ladder::{Ladder, place_in, start_of};
use std::alloc::{AllocError, Global};
use std::marker::Model;
use venue_model::{SYMBOL_SPOTS, Side, Symbol};

/// Where a ladder begins: no level of the ladders ahead of it is this symbol's and side's, or behind them.
#[derive(Clone, Copy)]
pub(crate) struct Fence {
    pub(crate) symbol: Symbol,
    pub(crate) side: Side,
}

/// The ladders of a symbol of the venue: where they are is known, and isn't looked for among the fences.
#[derive(Clone, Copy)]
pub(crate) struct Home {
    pub(crate) symbol: Symbol,
    pub(crate) buys: usize,
    pub(crate) sells: usize,
}

/// The place of a level: its ladder, and its place there.
#[derive(Clone, Copy)]
pub(crate) struct Rung {
    pub(crate) ladder: usize,
    pub(crate) at: usize,
}

/// How many homes stand side by side from a spot on, where the bytes of so many symbols lead to one.
const SIDE_BY_SIDE: usize = 8;

/// All levels, in one ladder more than there are fences.
#[derive(Drop)]
pub(crate) struct Ladders {
    fences: Vec<Fence>,
    homes: Vec<Home>,
    ladders: Vec<Ladder>,
    room: usize,
}

impl Model for Ladders {
    ghost use Rattle.std.specs.Prelude.{map};
    ghost use Rattle.price_levels.specs.Ladders.{Laddered, AreLadders, items_of};

    ghost Value = { Laddered };

    ghost view = { λ l. record { fences = l.fences.items; ladders = items_of l.ladders.items; room = l.room } };

    ghost invariant = { λ l. AreLadders l.fences.items l.homes.items l.ladders.items l.room };
}

impl Ladders {
    /// Ladders for these symbols, each with room for so many levels, and none yet. No other call asks for memory.
    pub(crate) fn new(alloc: Global, symbols: &[Symbol], room: usize) -> Result<Ladders, AllocError>
        requires { length symbols.now ≤ 8 }
        ensures { IfOk result (λ l. (all l ≡ []) × (l.room ≡ room)) }
    {
        let fences = fences_of(alloc, symbols)?;
        let homes = homes_of(alloc, symbols, &fences)?;
        let ladders = empty_ladders(alloc, fences.len() + 1, room)?;
        Ok(Ladders {
            fences,
            homes,
            ladders,
            room,
        })
    }

    /// The ladder of a symbol and side.
    #[inline(always)]
    pub(crate) fn ladder_of(&self, symbol: &Symbol, side: Side) -> usize
        ensures { BelongsToHome self.now.fences result symbol.now side }
    {
        let spot = symbol.spot();
        match self.known_ladder(spot, symbol, side) {
            Some(ladder) => ladder,
            None => self.ladder_beside(spot, symbol, side),
        }
    }

    /// The ladder of a symbol and side, where the home that stands there is the symbol's.
    #[inline(always)]
    fn known_ladder(&self, at: usize, symbol: &Symbol, side: Side) -> Option<usize>
        ensures { IfSome result (λ ladder. BelongsToHome self.now.fences ladder symbol.now side) }
    {
        let home = self.homes.get(at)?;
        if !home.symbol.is(symbol) {
            return None;
        }
        match side {
            Side::Buy => Some(home.buys),
            Side::Sell => Some(home.sells),
        }
    }

    /// The ladder of a symbol whose spot another one has: its home is looked for beside it, and then its fences.
    #[cold]
    #[inline(never)]
    fn ladder_beside(&self, spot: usize, symbol: &Symbol, side: Side) -> usize
        requires { spot < SYMBOL_SPOTS }
        ensures { BelongsToHome self.now.fences result symbol.now side }
    {
        for at in spot + 1..spot + SIDE_BY_SIDE {
            if let Some(ladder) = self.known_ladder(at, symbol, side) {
                return ladder;
            }
        }
        fence_at(&self.fences, symbol, side)
    }

    /// The place of a symbol, side and price, whose ladder is known: all levels ahead of it stand before them, and none
    /// from it on does. And whether the level there is theirs.
    #[inline(always)]
    pub(crate) fn search_in(
        &self,
        ladder: usize,
        symbol: &Symbol,
        side: Side,
        price: u64,
    ) -> (Rung, bool)
        requires order { InOrder (all self.now) }
        requires belongs { BelongsToHome self.now.fences ladder symbol.now side }
        ensures rung { IsRung self.now result.0 }
        ensures home { IsHome self.now result.0 symbol.now side }
        ensures before { AllByRecursion (λ l. key_before l.key (key_with symbol.now side price) ≡ true) (take (rung_number self.now result.0) (all self.now)) }
        ensures behind { AllByRecursion (λ l. key_before l.key (key_with symbol.now side price) ≡ false) (drop (rung_number self.now result.0) (all self.now)) }
        ensures holds { result.1 ≡ holds (all self.now) (rung_number self.now result.0) (key_with symbol.now side price) }
        ensures on { result.1 ≡ true → IsOn self.now result.0 }
    {
        let (at, holds) = place_in(self.ladders[ladder].levels(), symbol, side, price);
        (Rung { ladder, at }, holds)
    }

    /// The place of a symbol and side: all levels ahead of it stand before those, and none from it on does. And the
    /// place of the first order of the level there, with its price, if that is one of the symbol and side.
    #[inline(always)]
    pub(crate) fn search_side(&self, symbol: &Symbol, side: Side) -> (Rung, Option<(usize, u64)>)
        requires { InOrder (all self.now) }
        ensures rung { IsRung self.now result.0 }
        ensures home { IsHome self.now result.0 symbol.now side }
        ensures before { AllByRecursion (λ l. before_side symbol.now side l.key ≡ true) (take (rung_number self.now result.0) (all self.now)) }
        ensures behind { AllByRecursion (λ l. before_side symbol.now side l.key ≡ false) (drop (rung_number self.now result.0) (all self.now)) }
        ensures first { result.1 ≡ first_in symbol.now side (all self.now) (rung_number self.now result.0) }
    {
        let ladder = self.ladder_of(symbol, side);
        let (at, first) = start_of(self.ladders[ladder].levels(), symbol, side);
        (Rung { ladder, at }, first)
    }

    /// The level at a place.
    pub(crate) fn level(&self, rung: Rung) -> Level
        requires { IsOn self.now rung }
        ensures { result ≡ get_or (all self.now) (rung_number self.now rung) result }
    {
        self.ladders[rung.ladder].level(rung.at)
    }

    /// The level at a place is another of its key now.
    pub(crate) fn set(&mut self, rung: Rung, level: Level)
        requires on { IsOn self.old rung }
        requires key { level.key ≡ (get_or (all self.old) (rung_number self.old rung) level).key }
        ensures levels { all self.new ≡ slice_set (all self.old) (rung_number self.old rung) level }
        ensures fences { self.new.fences ≡ self.old.fences }
        ensures room { self.new.room ≡ self.old.room }
    {
        self.ladders[rung.ladder].set(rung.at, level);
    }

    /// A level comes, ahead of the one that stands there now.
    pub(crate) fn insert(&mut self, rung: Rung, level: Level)
        requires rung { IsRung self.old rung }
        requires home { IsHome self.old rung level.key.symbol level.key.side }
        requires room { length (all self.old) < self.old.room }
        ensures levels { all self.new ≡ insert (all self.old) (rung_number self.old rung) level }
        ensures fences { self.new.fences ≡ self.old.fences }
        ensures room { self.new.room ≡ self.old.room }
    {
        self.ladders[rung.ladder].insert(rung.at, level);
    }

    /// The level at a place goes.
    pub(crate) fn remove(&mut self, rung: Rung)
        requires { IsOn self.old rung }
        ensures levels { all self.new ≡ levels_with (all self.old) (rung_number self.old rung) [] }
        ensures fences { self.new.fences ≡ self.old.fences }
        ensures room { self.new.room ≡ self.old.room }
    {
        self.ladders[rung.ladder].remove(rung.at);
    }

    /// The place of the first order of the level at this place, and its price, if that is one of the symbol and side.
    #[inline(always)]
    pub(crate) fn first_in(&self, rung: Rung, symbol: &Symbol, side: Side) -> Option<(usize, u64)>
        requires rung { IsRung self.now rung }
        requires home { IsHome self.now rung symbol.now side }
        ensures { result ≡ first_in symbol.now side (all self.now) (rung_number self.now rung) }
    {
        first_in(self.ladders[rung.ladder].levels(), rung.at, symbol, side)
    }

    /// What the levels from this place on have left that an order crosses, up to the first that it doesn't.
    pub(crate) fn crossed_left(&self, rung: Rung, symbol: &Symbol, side: Side, price: u64) -> u64
        requires rung { IsRung self.now rung }
        requires home { IsHome self.now rung symbol.now (opposite side) }
        requires fits { crossed_left symbol.now side price (drop (rung_number self.now rung) (all self.now)) < 2 ^ 64 }
        ensures { result ≡ crossed_left symbol.now side price (drop (rung_number self.now rung) (all self.now)) }
    {
        crossed_left(
            &self.ladders[rung.ladder].levels()[rung.at..],
            symbol,
            side,
            price,
        )
    }
}

/// The fences of these symbols, two of each, each ahead of those that it is before. So each symbol and side has a
/// ladder alone, which is for speed: a clause has their number alone.
fn fences_of(alloc: Global, symbols: &[Symbol]) -> Result<Vec<Fence>, AllocError>
    requires { length symbols.now ≤ 8 }
    ensures { IfOk result (λ fences. length fences.items ≡ 2 * length symbols.now) }
{
    let mut fences = Vec::with_capacity(alloc, 2 * symbols.len())?;
    'symbols: for symbol in symbols {
        put(&mut fences, symbol, Side::Buy);
        put(&mut fences, symbol, Side::Sell);
    }
    Ok(fences)
}

/// Puts a fence ahead of the first that its symbol and side are before. There is room.
fn put(fences: &mut Vec<Fence>, symbol: &Symbol, side: Side)
    requires { vec_len fences.old < vec_capacity fences.old }
    ensures more { length fences.new.items ≡ length fences.old.items + 1 }
    ensures room { vec_capacity fences.old ≤ vec_capacity fences.new }
{
    let at = fence_at(fences, symbol, side);
    let fence = Fence {
        symbol: *symbol,
        side,
    };
    let _ = fences.insert(at, fence);
}

/// The number of the ladder where the levels of a symbol and side belong.
#[cold]
#[inline(never)]
fn fence_at(fences: &[Fence], symbol: &Symbol, side: Side) -> usize
    ensures belongs { BelongsToHome fences.now result symbol.now side }
    ensures within { result ≤ length fences.now }
{
    let key = Key {
        symbol: *symbol,
        side,
        price: 0,
    };
    'fences: for at in 0..fences.len() {
        if comes_before_side(&key, &fences[at].symbol, fences[at].side) {
            return at;
        }
    }
    fences.len()
}

/// Where the ladders of a symbol are.
fn home_of(symbol: &Symbol, fences: &[Fence]) -> Home
    ensures { IsHomeOf fences.now result }
{
    Home {
        symbol: *symbol,
        buys: fence_at(fences, symbol, Side::Buy),
        sells: fence_at(fences, symbol, Side::Sell),
    }
}

/// Where the ladders of these symbols are, each symbol's home at its spot or next to it. The first one's is wherever no
/// other is. That each is found so is for speed, and no clause says it.
fn homes_of(alloc: Global, symbols: &[Symbol], fences: &[Fence]) -> Result<Vec<Home>, AllocError>
    ensures { IfOk result (λ homes. AllByRecursion (IsHomeOf fences.now) homes.items) }
{
    if symbols.is_empty() {
        return Ok(Vec::new(alloc));
    }
    let first = home_of(&symbols[0], fences);
    let mut homes = vec![in alloc; first; SYMBOL_SPOTS + SIDE_BY_SIDE]?;
    'symbols: for symbol in symbols {
        settle(&mut homes, &first.symbol, home_of(symbol, fences));
    }
    Ok(homes)
}

/// Puts a home at its spot, or next to it, where none but this first symbol's is.
fn settle(homes: &mut Vec<Home>, first: &Symbol, home: Home)
    ensures { (fences : List Fence) → IsHomeOf fences home → AllByRecursion (IsHomeOf fences) homes.old.items
        → AllByRecursion (IsHomeOf fences) homes.new.items }
{
    if let Some(at) = free_spot(homes, first, &home.symbol) {
        homes[at] = home;
    }
}

/// A symbol's spot, or one next to it, where this first symbol's home is.
fn free_spot(homes: &[Home], first: &Symbol, symbol: &Symbol) -> Option<usize>
    ensures { IfSome result (λ at. at < length homes.now) }
{
    let spot = symbol.spot();
    for at in spot..spot + SIDE_BY_SIDE {
        if at < homes.len() && homes[at].symbol.is(first) {
            return Some(at);
        }
    }
    None
}

/// So many ladders, each with room for so many levels.
fn empty_ladders(alloc: Global, count: usize, room: usize) -> Result<Vec<Ladder>, AllocError>
    ensures { IfOk result (λ ladders. (length ladders.items ≡ count) × AllByRecursion (IsEmpty room) ladders.items) }
{
    let mut ladders = Vec::with_capacity(alloc, count)?;
    'ladders: for _ in 0..count {
        let ladder = Ladder::new(alloc, room)?;
        ladders.push_reserved(ladder);
    }
    Ok(ladders)
}
