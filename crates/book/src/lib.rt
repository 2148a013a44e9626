//! The book: price-time matching, one command after another, behind the input ring's stages. Its orders rest in price
//! levels, and each is found by its client and ClOrdID; contracts see them as one list in the order of their stamps.
#![tactic(auto)]

mod book;
mod laws;
mod listing;
mod logic;
mod matching;
mod order_index;
mod refusals;
mod reports;
mod requests;
mod resting;
mod snapshot;
mod symbol_spots;

pub use book::Book;
pub use laws::{
    a_snapshot_spells_one_state, a_state_can_be_a_snapshot, both_sides_trade_the_same,
    each_command_is_answered_first, every_text_is_fields, fill_or_kill_is_whole,
    fills_come_in_order, market_orders_take_what_there_is, no_order_is_overfilled,
    outputs_only_grow, priority_holds, stamps_are_sequences, the_book_is_bounded,
    the_book_is_never_crossed, trades_keep_limits, what_is_bought_is_sold,
};
pub use listing::every_order_is_listed_once;
pub use logic::BookLogic;
pub use price_levels::Depth;
pub use snapshot::{RestoreFault, Restored};
pub use venue_model::{MOST_OUTPUTS, MOST_RESTING};
