//! One ladder: levels in a list that may begin behind a gap, so that the best of them come and go without a move of
//! those behind. Contracts see the levels alone.
ghost use Rattle.std.specs.Prelude.{◌≡◌, ◌↔◌, ◌<◌, ◌≤◌, [], true, false, length, take, drop, get_or, slice_set, IfOk};
ghost use Rattle.std.specs.List.{AllByRecursion, insert};
ghost use Rattle.std.specs.Vec.{vec_capacity};
ghost use Rattle.price_levels.specs.Arena.{of_side, first_in, holds, levels_with};
ghost use Rattle.price_levels.specs.Keys.{key_with, key_before, before_side, InOrder};
ghost use Rattle.price_levels.specs.Ladders.{IsBehindGap};

use crate::finds::{first_in, holds, is_of};
use crate::keys::{Key, Level, likely_place, price_before, search, search_price, search_side};
use std::alloc::{AllocError, Global};
use std::marker::Model;
use venue_model::{Side, Symbol};

/// The gap is at most so many levels long. Each ladder has so much more room than its levels need, and so not all of
/// them begin at the same place of a page: their first levels, which are read most, would push one another out of a
/// processor's nearest memory.
pub(crate) const GAP: usize = 27;

/// The levels, from this place of the list on. What stands ahead of it is the gap.
#[derive(Drop)]
pub(crate) struct Ladder {
    list: Vec<Level>,
    start: usize,
}

impl Model for Ladder {
    ghost use Rattle.std.specs.Prelude.{drop, ◌-◌};
    ghost use Rattle.std.specs.Vec.{vec_capacity};
    ghost use Rattle.price_levels.specs.declared.ladder.TheConstants.{GAP};
    ghost use Rattle.price_levels.specs.Ladders.{Levelled, IsBehindGap};

    ghost Value = { Levelled };

    ghost view = { λ l. record { items = drop l.start l.list.items; room = vec_capacity l.list - GAP } };

    ghost invariant = { λ l. IsBehindGap l.start l.list.items };
}

impl Ladder {
    /// No level, and room for so many.
    pub(crate) fn new(alloc: Global, room: usize) -> Result<Ladder, AllocError>
        ensures { IfOk result (λ l. (l.items ≡ []) × (room ≤ l.room)) }
    {
        let Some(most) = room.checked_add(GAP) else {
            return Err(AllocError);
        };
        let list = Vec::with_capacity(alloc, most)?;
        Ok(Ladder { list, start: 0 })
    }

    /// The levels.
    #[inline(always)]
    pub(crate) fn levels(&self) -> &[Level]
        ensures { result.now ≡ self.now.items }
    {
        &self.list[self.start..]
    }

    /// The level at a place.
    #[inline(always)]
    pub(crate) fn level(&self, at: usize) -> Level
        requires { at < length self.now.items }
        ensures { result ≡ get_or self.now.items at result }
    {
        self.list[self.start + at]
    }

    /// The level at a place is another now.
    #[inline(always)]
    pub(crate) fn set(&mut self, at: usize, level: Level)
        requires { at < length self.old.items }
        ensures levels { self.new.items ≡ slice_set self.old.items at level }
        ensures room { self.new.room ≡ self.old.room }
    {
        self.list[self.start + at] = level;
    }

    /// A level comes, ahead of the one that stands there now. Those ahead of it move into the gap, or those behind it
    /// move, whichever are fewer.
    pub(crate) fn insert(&mut self, at: usize, level: Level)
        requires at { at ≤ length self.old.items }
        requires room { length self.old.items < self.old.room }
        ensures levels { self.new.items ≡ insert self.old.items at level }
        ensures room { self.new.room ≡ self.old.room }
    {
        let place = self.start + at;
        if 0 < self.start && at <= self.list.len() - place {
            self.list.copy_within(self.start..place, self.start - 1);
            self.start -= 1;
            self.list[place - 1] = level;
        } else {
            let _ = self.list.insert(place, level);
        }
    }

    /// The level at a place goes. If it is the best, the gap grows, unless it is as long as it may be.
    #[inline(always)]
    pub(crate) fn remove(&mut self, at: usize)
        requires { at < length self.old.items }
        ensures levels { self.new.items ≡ levels_with self.old.items at [] }
        ensures room { self.new.room ≡ self.old.room }
    {
        if at == 0 && self.start < GAP {
            self.start += 1;
        } else {
            self.close_up(at);
        }
    }

    /// The same for any level: those ahead of it move, and the gap grows, or those behind it move, whichever are fewer.
    #[inline(never)]
    fn close_up(&mut self, at: usize)
        requires { at < length self.old.items }
        ensures levels { self.new.items ≡ levels_with self.old.items at [] }
        ensures room { self.new.room ≡ self.old.room }
    {
        let start = close_long_gap(&mut self.list, self.start);
        let place = start + at;
        if at < self.list.len() - place {
            self.list.copy_within(start..place, start + 1);
            self.start = start + 1;
        } else {
            self.list.remove(place);
            self.start = start;
        }
    }
}

/// If the gap is as long as it may be, it is closed. It answers where the levels stand now.
#[inline(always)]
fn close_long_gap(list: &mut Vec<Level>, start: usize) -> usize
    requires start { IsBehindGap start list.old.items }
    ensures levels { drop result list.new.items ≡ drop start list.old.items }
    ensures within { result ≤ length list.new.items }
    ensures shorter { result < GAP }
    ensures capacity { vec_capacity list.new ≡ vec_capacity list.old }
{
    if start < GAP {
        return start;
    }
    close(list, start);
    0
}

/// The levels from this place on move to where the list begins.
#[cold]
#[inline(never)]
fn close(list: &mut Vec<Level>, start: usize)
    requires start { start ≤ length list.old.items }
    ensures levels { list.new.items ≡ drop start list.old.items }
    ensures capacity { vec_capacity list.new ≡ vec_capacity list.old }
{
    let count = list.len() - start;
    list.copy_within(start.., 0);
    list.truncate(count);
}

/// The place of a symbol, side and price in a ladder, mostly where the price leads to, and whether their level stands
/// there.
#[inline(always)]
pub(crate) fn place_in(levels: &[Level], symbol: &Symbol, side: Side, price: u64) -> (usize, bool)
    requires { InOrder levels.now }
    ensures within { result.0 ≤ length levels.now }
    ensures before { AllByRecursion (λ l. key_before l.key (key_with symbol.now side price) ≡ true) (take result.0 levels.now) }
    ensures behind { AllByRecursion (λ l. key_before l.key (key_with symbol.now side price) ≡ false) (drop result.0 levels.now) }
    ensures holds { result.1 ≡ holds levels.now result.0 (key_with symbol.now side price) }
{
    let at = likely_place(levels, side, price);
    if holds(levels, at, symbol, side, price) {
        return (at, true);
    }
    if are_ahead(levels, at, symbol, side, price) && none_from(levels, at, symbol, side, price) {
        return (at, false);
    }
    let found = search_all(levels, symbol, side, price);
    (found, holds(levels, found, symbol, side, price))
}

/// Whether the level ahead of a place is of the symbol and side, and of a better price: so all ahead of it stand
/// before.
#[inline(always)]
fn are_ahead(levels: &[Level], at: usize, symbol: &Symbol, side: Side, price: u64) -> bool
    requires order { InOrder levels.now }
    requires within { at ≤ length levels.now }
    ensures { result ≡ true → AllByRecursion (λ l. key_before l.key (key_with symbol.now side price) ≡ true) (take at levels.now) }
{
    if at == 0 {
        return true;
    }
    let level = &levels[at - 1];
    is_of(level, symbol, side) && price_before(side, level.key.price, price)
}

/// Whether the level at a place is of the symbol and side, and of no better price: so none from it on stands before.
#[inline(always)]
fn none_from(levels: &[Level], at: usize, symbol: &Symbol, side: Side, price: u64) -> bool
    requires order { InOrder levels.now }
    requires within { at ≤ length levels.now }
    ensures { result ≡ true → AllByRecursion (λ l. key_before l.key (key_with symbol.now side price) ≡ false) (drop at levels.now) }
{
    if at == levels.len() {
        return true;
    }
    let level = &levels[at];
    is_of(level, symbol, side) && !price_before(side, level.key.price, price)
}

/// The place of a symbol, side and price among all levels of a ladder: by prices alone, where all are of the symbol and
/// side.
#[cold]
#[inline(never)]
fn search_all(levels: &[Level], symbol: &Symbol, side: Side, price: u64) -> usize
    requires { InOrder levels.now }
    ensures within { result ≤ length levels.now }
    ensures before { AllByRecursion (λ l. key_before l.key (key_with symbol.now side price) ≡ true) (take result levels.now) }
    ensures behind { AllByRecursion (λ l. key_before l.key (key_with symbol.now side price) ≡ false) (drop result levels.now) }
{
    let key = Key {
        symbol: *symbol,
        side,
        price,
    };
    if are_of(levels, symbol, side) {
        search_price(levels, &key)
    } else {
        search(levels, &key)
    }
}

/// Whether the first and the last level are of the symbol and side: so are all between them.
#[inline(always)]
fn are_of(levels: &[Level], symbol: &Symbol, side: Side) -> bool
    requires { InOrder levels.now }
    ensures { (result ≡ true) ↔ AllByRecursion (λ l. of_side symbol.now side l.key ≡ true) levels.now }
{
    if levels.is_empty() {
        return true;
    }
    is_of(&levels[0], symbol, side) && is_of(&levels[levels.len() - 1], symbol, side)
}

/// The place of a symbol and side in a ladder: it begins with them, unless there are others. And the place of the first
/// order of the level there, with its price, if that is one of the symbol and side.
#[inline(always)]
pub(crate) fn start_of(
    levels: &[Level],
    symbol: &Symbol,
    side: Side,
) -> (usize, Option<(usize, u64)>)
    requires { InOrder levels.now }
    ensures within { result.0 ≤ length levels.now }
    ensures before { AllByRecursion (λ l. before_side symbol.now side l.key ≡ true) (take result.0 levels.now) }
    ensures behind { AllByRecursion (λ l. before_side symbol.now side l.key ≡ false) (drop result.0 levels.now) }
    ensures first { result.1 ≡ first_in symbol.now side levels.now result.0 }
{
    if levels.is_empty() {
        return (0, None);
    }
    let level = &levels[0];
    if is_of(level, symbol, side) {
        return (0, Some((level.first, level.key.price)));
    }
    let at = search_side(levels, symbol, side);
    (at, first_in(levels, at, symbol, side))
}
