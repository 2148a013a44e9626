//! An order, decoded again and again.
use fix_orders::decode;
use venue_model::{Command, Side, TimeInForce};

/// An order, to buy 100 ABC at 50, as it comes in. The blocks of a journal have it, too.
pub const ORDER: &[u8; 125] =
    b"8=FIX.4.4\x019=102\x0135=D\x0149=C1\x0156=VENUE\x0134=2\x0152=20250102-09:30:00\x0111=1\x0155=ABC\x0154=1\x0160=20250102-09:30:00\x0138=100\x0140=2\x0144=50\x0110=098\x01";

/// The sum of what is read of the order: SendingTime, ClOrdID, Price, OrderQty, and how long Symbol is.
pub const SUM: u64 = 20_250_102_093_000 + 1 + 50 + 100 + 3;

/// Decodes the order so many times, each time copied into the buffer of its reader, as the unmarshaller reads a message
/// out of its row, and answers the sum of all that was read.
pub fn read_orders(copies: u32) -> u64 {
    let mut message = [0; 125];
    let mut sum = 0u64;
    for _ in 0..copies {
        message.copy_from_slice(ORDER);
        sum = sum.wrapping_add(sum_of(&decode(&message, true)));
    }
    sum
}

/// The sum of what a new order to buy has, so that all of it is read; of anything else nothing.
fn sum_of(command: &Command) -> u64 {
    match command {
        Command::New {
            sending_time,
            order,
        } if order.side == Side::Buy && order.time_in_force == TimeInForce::Day => sending_time
            .wrapping_add(order.cl_ord_id)
            .wrapping_add(order.ord_type.price_of(order.side))
            .wrapping_add(order.quantity)
            .wrapping_add(order.symbol.as_bytes().len() as u64),
        _ => 0,
    }
}
