//! The bodies of reports, written again and again: what the marshaller does with each output.
use fix_orders::body_of;
use venue_model::{
    ExecType, ExecutionReport, LONGEST_MESSAGE, Order, Output, Report, Side, Symbol,
};

/// How many reports there are. They are written by turns.
const REPORTS: usize = 4;

/// ExecID (17) of the first one.
const FIRST_EXEC_ID: u64 = 1_234_567;

/// The body of the first one, an acknowledgement.
const ACKNOWLEDGEMENT: &[u8] =
    b"37=601234\x0117=1234567\x01150=0\x0139=0\x0111=1000000017\x0155=ABC\x0154=1\x0138=2500\x0144=10050\x01151=2500\x0114=0\x016=0\x01";

/// What happened to an order of this client: a fill of its quantity in part or in full, or nothing but that it came in.
fn report(client: u8, exec_type: ExecType, cum: u64) -> Output {
    let Some(symbol) = Symbol::new(b"ABC") else {
        unreachable!()
    };
    Output {
        to: client,
        cause: 601_233,
        sending_time: 20_250_102_093_000,
        report: Report::Exec(ExecutionReport {
            exec_type,
            order: Order {
                id: 601_234,
                client,
                cl_ord_id: 1_000_000_017,
                symbol,
                side: Side::Buy,
                price: 10_050,
                is_market: false,
                total: 2_500,
                cum,
                notional: cum.wrapping_mul(10_050),
                stamp: 601_233,
            },
        }),
    }
}

/// The reports of an order's life, as four clients get theirs.
pub fn reports() -> [Output; REPORTS] {
    let part = ExecType::Trade {
        last_qty: 700,
        last_px: 10_050,
    };
    let rest = ExecType::Trade {
        last_qty: 1_800,
        last_px: 10_050,
    };
    let gone = ExecType::Canceled {
        orig_cl_ord_id: Some(1_000_000_016),
    };
    [
        report(1, ExecType::New, 0),
        report(4, part, 700),
        report(7, rest, 2_500),
        report(8, gone, 700),
    ]
}

/// Writes the body of the acknowledgement at the buffer's front, and says whether it is right.
pub fn writes_first(body: &mut [u8; LONGEST_MESSAGE], reports: &[Output; REPORTS]) -> bool {
    let end = body_of(&reports[0], FIRST_EXEC_ID, body);
    body.get(..end) == Some(ACKNOWLEDGEMENT)
}

/// Writes so many bodies by turns, each over the one before and each with an ExecID of its own, and answers how many
/// bytes were written.
pub fn write_bodies(
    body: &mut [u8; LONGEST_MESSAGE],
    reports: &[Output; REPORTS],
    copies: u32,
) -> u64 {
    let mut written = 0u64;
    for at in 0..copies {
        let report = &reports[at as usize % REPORTS];
        written = written.wrapping_add(body_of(report, FIRST_EXEC_ID + u64::from(at), body) as u64);
    }
    written
}
