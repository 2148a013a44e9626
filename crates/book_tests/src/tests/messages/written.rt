//! Reports that are written, and frames round them.
use super::texts::bytes_of;
use fix_frame::{whole, write_frame};
use fix_orders::body_of;
use std::alloc::Global;
use std::process::Abort;
use std::test::Fail;
use venue_model::{
    ExecType, ExecutionReport, LONGEST_MESSAGE, Malformed, Order, Output, RefMsgType, Report,
    SessionRejectReason, Side, Symbol,
};

/// The order to buy 100 at 50, as it rests.
fn buy(name: u64, symbol: Symbol) -> Order {
    Order {
        id: 1,
        client: 1,
        cl_ord_id: name,
        symbol,
        side: Side::Buy,
        is_market: false,
        price: 50,
        total: 100,
        cum: 0,
        notional: 0,
        stamp: 0,
    }
}

/// What C1 is told of that order.
fn told(exec_type: ExecType, order: Order) -> Output {
    Output {
        to: 1,
        cause: 0,
        sending_time: 20_250_102_093_000,
        report: Report::Exec(ExecutionReport { exec_type, order }),
    }
}

/// The body of the output at this place is this text.
fn says<A: Abort>(
    rt: &A,
    alloc: Global,
    output: &Output,
    exec_id: u64,
    text: &str,
) -> Result<(), Fail> {
    let body = bytes_of(alloc, text)?;
    assert!(rt; is_body(output, exec_id, &body), "{text}");
    Ok(())
}

fn is_body(output: &Output, exec_id: u64, body: &[u8]) -> bool {
    let mut buf = [0; LONGEST_MESSAGE];
    let len = body_of(output, exec_id, &mut buf);
    &buf[..len] == body
}

#[test]
fn acknowledged(rt: HostRuntime) -> Result<(), Fail> {
    let abc = Symbol::new(b"ABC").ok_or("no symbol")?;
    says(
        &rt,
        rt.alloc(),
        &told(ExecType::New, buy(1, abc)),
        1,
        "37=1|17=1|150=0|39=0|11=1|55=ABC|54=1|38=100|44=50|151=100|14=0|6=0|",
    )
}

#[test]
fn cancel_report(rt: HostRuntime) -> Result<(), Fail> {
    let abc = Symbol::new(b"ABC").ok_or("no symbol")?;
    let canceled = ExecType::Canceled {
        orig_cl_ord_id: Some(1),
    };
    says(
        &rt,
        rt.alloc(),
        &told(canceled, buy(2, abc)),
        2,
        "37=1|17=2|150=4|39=4|11=2|41=1|55=ABC|54=1|38=100|44=50|151=0|14=0|6=0|",
    )
}

#[test]
fn reject_side(rt: HostRuntime) -> Result<(), Fail> {
    let fault = Malformed {
        reason: SessionRejectReason::ValueIncorrect,
        tag: 54,
        ref_seq: 2,
        ref_type: RefMsgType::NewOrderSingle,
    };
    let output = Output {
        to: 1,
        cause: 0,
        sending_time: 20_250_102_093_000,
        report: Report::SessionReject(fault),
    };
    says(&rt, rt.alloc(), &output, 1, "45=2|371=54|372=D|373=5|")
}

/// Puts the frame of that Reject at the front.
fn put_reject(out: &mut [u8; 128]) -> usize {
    write_frame(
        out,
        b"35=3\x0149=VENUE\x0156=C1\x0134=2\x0152=20250102-09:30:00\x01\
          45=2\x01371=54\x01372=D\x01373=5\x01",
    )
}

#[test]
fn frame_of_a_reject(rt: HostRuntime) -> Result<(), Fail> {
    let mut out = [b'x'; 128];
    let len = put_reject(&mut out);
    let due = bytes_of(
        rt.alloc(),
        "8=FIX.4.4|9=70|35=3|49=VENUE|56=C1|34=2|52=20250102-09:30:00|45=2|371=54|372=D|373=5|10=065|",
    )?;
    assert!(rt; is_front(&out, len, &due));
    assert!(rt; whole(&due).is_some());
    Ok(())
}

/// Whether these bytes, so many, stand in front, and behind them what stood there.
fn is_front(out: &[u8], len: usize, due: &[u8]) -> bool {
    out.get(..len) == Some(due) && out.get(len) == Some(&b'x')
}
