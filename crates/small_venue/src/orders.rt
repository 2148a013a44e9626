//! Orders that tell their client and their number, and what is reported of them: each is accepted, and one that is to
//! be immediate or cancelled is cancelled then, since nobody sells.

/// How long orders are good for.
#[derive(Clone, Copy)]
pub enum Good {
    /// The day: each has one report.
    ForTheDay,
    /// Immediately, or cancelled: each has two reports.
    Immediately,
}

impl Good {
    /// The digit that says so in an order (59).
    fn digit(self) -> u8 {
        match self {
            Good::ForTheDay => b'0',
            Good::Immediately => b'3',
        }
    }
}

/// The first order of C1: to buy 1 at 1 immediately, or to cancel.
const ORDER: &[u8; 130] =
    b"8=FIX.4.4\x019=107\x0135=D\x0149=C1\x0156=VENUE\x0134=2\x0152=20250102-09:30:00\x01\
    11=1000\x0155=ABC\x0154=1\x0160=20250102-09:30:00\x0138=1\x0140=2\x0144=1\x0159=3\x0110=000\x01";

/// Where it says how long it is good for.
const GOOD: usize = 121;

/// Where its CheckSum field begins.
const SUMMED: usize = 123;

/// What is reported of it behind OrderID and ExecID: that it is accepted, and that it is cancelled.
const ACCEPTED: &[u8; 56] =
    b"150=0\x0139=0\x0111=1000\x0155=ABC\x0154=1\x0138=1\x0144=1\x01151=1\x0114=0\x016=0\x01";

const CANCELLED: &[u8; 56] =
    b"150=4\x0139=4\x0111=1000\x0155=ABC\x0154=1\x0138=1\x0144=1\x01151=0\x0114=0\x016=0\x01";

/// The last digit of a number.
fn last_digit(number: u64) -> u8 {
    b'0' + (number % 10) as u8
}

/// The three last digits of a number.
fn digits(number: u64) -> [u8; 3] {
    [
        last_digit(number / 100),
        last_digit(number / 10),
        last_digit(number),
    ]
}

/// The ClOrdID of an order: its client's digit, and its number below 1,000.
pub fn name(client: u8, number: u64) -> [u8; 4] {
    let [hundreds, tens, ones] = digits(number);
    [client, hundreds, tens, ones]
}

/// The sum of these bytes, as CheckSum has it.
fn sum_of(bytes: &[u8]) -> u8 {
    let mut sum = 0_u8;
    for byte in bytes {
        sum = sum.wrapping_add(*byte);
    }
    sum
}

/// The order of this number, of the client with this digit.
pub fn order_of(client: u8, number: u64, good: Good) -> [u8; 130] {
    let [hundreds, tens, ones] = digits(number);
    let mut order = *ORDER;
    order[25] = client;
    order[65] = client;
    order[66] = hundreds;
    order[67] = tens;
    order[68] = ones;
    order[GOOD] = good.digit();
    let [hundreds, tens, ones] = digits(u64::from(sum_of(&order[..SUMMED])));
    order[126] = hundreds;
    order[127] = tens;
    order[128] = ones;
    order
}

/// What the report of this number to that client, from 0 on, says behind OrderID and ExecID.
pub fn report_of(client: u8, number: u64, good: Good) -> [u8; 56] {
    let (order, is_first) = match good {
        Good::ForTheDay => (number, true),
        Good::Immediately => (number / 2, number % 2 == 0),
    };
    let mut report = if is_first { *ACCEPTED } else { *CANCELLED };
    report[14..18].copy_from_slice(&name(client, order));
    report
}
