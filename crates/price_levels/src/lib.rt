//! Resting orders by price and time, for the book: an arena of orders linked within their price levels, and the levels
//! in the order of their prices. Contracts see a list of places, each with an order or free.
#![tactic(auto)]

mod changes;
mod finds;
mod keys;
mod ladder;
mod ladders;
mod levels;
mod nodes;
mod reads;

pub use levels::{Depth, Levels, Place};
pub use reads::{ReadCounter, Reads};
