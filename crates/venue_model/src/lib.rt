//! What the venue is about: entries, commands, outputs, resting orders, and the symbols that are traded.
//! Each crate above speaks of these; `specs/` has what they mean: the history, the book and its step.
#![tactic(auto)]

mod bounds;
mod commands;
mod entries;
mod logic;
mod orders;
mod outputs;
mod past;
mod symbol;
mod symbols;

pub use bounds::{
    HIGHEST_PRICE, LONGEST_MESSAGE, LONGEST_SYMBOL, MOST_GATEWAYS, MOST_IN_BLOCK, MOST_OUTPUTS,
    MOST_RESTING, MOST_SYMBOLS, SYMBOL_SPOTS,
};
pub use commands::{
    Command, Malformed, NewOrderSingle, OrdType, OrderCancelReplaceRequest, OrderCancelRequest,
    RefMsgType, SessionRejectReason, TimeInForce,
};
pub use entries::Entry;
pub use logic::{Kept, Logic};
pub use orders::{Order, Side};
pub use outputs::{
    Cause, CxlRejReason, CxlRejResponseTo, ExecType, ExecutionReport, OrdRejReason,
    OrderCancelReject, Output, OutputType, Report,
};
pub use past::Past;
pub use symbol::Symbol;
pub use symbols::{Limits, LimitsFault};
