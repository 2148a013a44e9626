//! The levels in their order: by symbol, buys before sells, and of one symbol and side from the best price on. A key's
//! place among them is mostly where its price leads to, or else found by halving; among levels of its symbol and side,
//! those of a better price are counted.
ghost use Rattle.std.specs.Prelude.{◌≡◌, ◌<◌, ◌≤◌, ◌+◌, length, take, drop, true, false, if◌then◌else◌};
ghost use Rattle.std.specs.List.{AllByRecursion};
ghost use Rattle.venue_model.specs.Orders.{is_better};
ghost use Rattle.price_levels.specs.Arena.{of_side};
ghost use Rattle.price_levels.specs.Keys.{key_of, key_before, symbol_before, before_side, InOrder, count_better, BetterFirst};

use std::cmp::Ordering;
use venue_model::{Order, Side, Symbol};

/// More levels than this are halved first.
const MANY: usize = 64;

/// What the orders of one level share.
#[derive(Clone, Copy)]
pub(crate) struct Key {
    pub(crate) symbol: Symbol,
    pub(crate) side: Side,
    pub(crate) price: u64,
}

/// One price of one symbol and side: the places of its first and last order, what all of its orders have left, and how
/// many they are.
#[derive(Clone, Copy)]
pub(crate) struct Level {
    pub(crate) key: Key,
    pub(crate) first: usize,
    pub(crate) last: usize,
    pub(crate) left: u64,
    pub(crate) orders: u64,
}

/// The level that an order rests in.
pub(crate) fn key_of(order: &Order) -> Key
    ensures { result ≡ key_of order.now }
{
    Key {
        symbol: order.symbol,
        side: order.side,
        price: order.price,
    }
}

/// Whether a symbol stands before another.
fn symbol_before(symbol: &Symbol, other: &Symbol) -> bool
    ensures { result ≡ symbol_before symbol.now other.now }
{
    match symbol.as_bytes().cmp(other.as_bytes()) {
        Ordering::Less => true,
        _ => false,
    }
}

/// Whether a price stands before another of its side.
pub(crate) fn price_before(side: Side, price: u64, other: u64) -> bool
    ensures { result ≡ is_better side price other }
{
    match side {
        Side::Buy => other < price,
        Side::Sell => price < other,
    }
}

/// Whether a level stands before another.
fn comes_before(key: &Key, other: &Key) -> bool
    ensures { result ≡ key_before key.now other.now }
{
    if key.symbol.is(&other.symbol) {
        match (key.side, other.side) {
            (Side::Buy, Side::Sell) => true,
            (Side::Sell, Side::Buy) => false,
            _ => price_before(key.side, key.price, other.price),
        }
    } else {
        symbol_before(&key.symbol, &other.symbol)
    }
}

/// The place of a key: all levels ahead of it stand before the key, and none from it on does.
#[inline(never)]
pub(crate) fn search(levels: &[Level], key: &Key) -> usize
    requires { InOrder levels.now }
    ensures within { result ≤ length levels.now }
    ensures before { AllByRecursion (λ l. key_before l.key key.now ≡ true) (take result levels.now) }
    ensures behind { AllByRecursion (λ l. key_before l.key key.now ≡ false) (drop result levels.now) }
{
    levels.partition_point(|level| comes_before(&level.key, key))
}

/// The place of a key among levels of its symbol and side, by their prices alone.
pub(crate) fn search_price(levels: &[Level], key: &Key) -> usize
    requires order { InOrder levels.now }
    requires one { AllByRecursion (λ l. of_side key.now.symbol key.now.side l.key ≡ true) levels.now }
    ensures within { result ≤ length levels.now }
    ensures before { AllByRecursion (λ l. key_before l.key key.now ≡ true) (take result levels.now) }
    ensures behind { AllByRecursion (λ l. key_before l.key key.now ≡ false) (drop result levels.now) }
{
    match key.side {
        Side::Buy => count_better(levels, Side::Buy, key.price),
        Side::Sell => count_better(levels, Side::Sell, key.price),
    }
}

/// How many levels have a better price, where those stand first. Where they end is a matter of chance, which a
/// processor can't foresee. So they are counted without a branch: eight at a time and then one by one.
#[inline(always)]
fn count_better(levels: &[Level], side: Side, price: u64) -> usize
    requires { BetterFirst side price levels.now }
    ensures { result ≡ count_better side price levels.now }
{
    if levels.len() < 8 {
        return count_some(levels, side, price, 0, levels.len());
    }
    let (from, upto) = halve(levels, side, price);
    let at = count_eights(levels, side, price, from, upto);
    count_some(levels, side, price, at.min(levels.len() - 7), 7)
}

/// Where a price is looked for first: among levels of one symbol and side mostly its place. No clause says so, and who
/// asks sees whether it is.
#[inline(always)]
pub(crate) fn likely_place(levels: &[Level], side: Side, price: u64) -> usize
    ensures { result ≤ length levels.now }
{
    match side {
        Side::Buy => place_near(levels, Side::Buy, price),
        Side::Sell => place_near(levels, Side::Sell, price),
    }
}

/// The first place, unless the level there has a better price. Else those of a better price are counted among seven
/// where they mostly end, without a branch.
#[inline(always)]
fn place_near(levels: &[Level], side: Side, price: u64) -> usize
    ensures { result ≤ length levels.now }
{
    if levels.is_empty() || !price_before(side, levels[0].key.price, price) {
        return 0;
    }
    if levels.len() < 8 {
        return count_some(levels, side, price, 0, levels.len());
    }
    count_some(levels, side, price, near(levels, side, price), 7)
}

/// Where seven levels begin, up to the place that the price would have if each tick from the first level's on had one.
/// Where some have none, those of a better price end farther ahead, and mostly among the seven.
#[inline(always)]
fn near(levels: &[Level], side: Side, price: u64) -> usize
    requires { 8 ≤ length levels.now }
    ensures { result + 7 ≤ length levels.now }
{
    let first = levels[0].key.price;
    let ticks = match side {
        Side::Buy => first.saturating_sub(price),
        Side::Sell => price.saturating_sub(first),
    };
    (ticks as usize).saturating_sub(7).min(levels.len() - 7)
}

/// Halves the levels until few are left: from one place up to another. Those of a better price end there.
#[inline(always)]
fn halve(levels: &[Level], side: Side, price: u64) -> (usize, usize)
    requires { BetterFirst side price levels.now }
    ensures from { result.0 ≤ count_better side price levels.now }
    ensures upto { count_better side price levels.now ≤ result.1 }
    ensures within { result.1 ≤ length levels.now }
    ensures few { result.1 ≤ result.0 + 64 }
{
    let mut from = 0;
    let mut upto = levels.len();
    while upto - from > MANY {
        let middle = from + (upto - from) / 2;
        if price_before(side, levels[middle].key.price, price) {
            from = middle + 1;
        } else {
            upto = middle;
        }
    }
    (from, upto)
}

/// Of the levels from one place up to another, where those of a better price end, passes over eight at a time that are
/// all better. It looks at the last of each eight.
#[inline(always)]
fn count_eights(levels: &[Level], side: Side, price: u64, from: usize, upto: usize) -> usize
    requires order { BetterFirst side price levels.now }
    requires from { from ≤ count_better side price levels.now }
    requires upto { count_better side price levels.now ≤ upto }
    requires within { upto ≤ length levels.now }
    ensures at { result ≤ count_better side price levels.now }
    ensures rest { count_better side price levels.now ≤ result + 7 }
{
    let mut eights = 0;
    'eights: for eight in 0..(upto - from) / 8 {
        eights += usize::from(price_before(side, levels[from + 8 * eight + 7].key.price, price));
    }
    from + 8 * eights
}

/// Of so many levels from a place on, counts those of a better price, and all ahead of the place. If those of a better
/// price stand first and end there, these are all of them.
#[inline(always)]
fn count_some(levels: &[Level], side: Side, price: u64, from: usize, many: usize) -> usize
    requires { from + many ≤ length levels.now }
    ensures most { result ≤ from + many }
    ensures all { BetterFirst side price levels.now → from ≤ count_better side price levels.now →
        count_better side price levels.now ≤ from + many → result ≡ count_better side price levels.now }
{
    let mut at = from;
    'levels: for next in 0..many {
        at += usize::from(price_before(side, levels[from + next].key.price, price));
    }
    at
}

/// Whether a level stands before all of a symbol and side.
pub(crate) fn comes_before_side(key: &Key, symbol: &Symbol, side: Side) -> bool
    ensures { result ≡ before_side symbol.now side key.now }
{
    if key.symbol.is(symbol) {
        match (key.side, side) {
            (Side::Buy, Side::Sell) => true,
            _ => false,
        }
    } else {
        symbol_before(&key.symbol, symbol)
    }
}

/// The place of a symbol and side: all levels ahead of it stand before those, and none from it on does.
#[inline(never)]
pub(crate) fn search_side(levels: &[Level], symbol: &Symbol, side: Side) -> usize
    requires { InOrder levels.now }
    ensures within { result ≤ length levels.now }
    ensures before { AllByRecursion (λ l. before_side symbol.now side l.key ≡ true) (take result levels.now) }
    ensures behind { AllByRecursion (λ l. before_side symbol.now side l.key ≡ false) (drop result levels.now) }
{
    levels.partition_point(|level| comes_before_side(&level.key, symbol, side))
}
