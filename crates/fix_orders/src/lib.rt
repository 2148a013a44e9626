//! Commands out of frames, and the bodies of reports: between the frames of a session and the book.
#![tactic(auto)]

mod body;
mod codes;
mod command;
mod fields;
mod formats;
mod header;
mod laws;
mod number;
mod put;
mod tables;
mod time;
mod values;

pub use body::body_of;
pub use codes::msg_type_code;
pub use command::{command_of, decode};
pub use header::{Header, read_header};
pub use laws::{
    exactly_one_frame, no_market_orders_before_the_cut, numbers_are_in_range, times_are_kept,
};
pub use put::{put_bytes, put_field, put_number};
pub use time::{number_of_time, time_text};
