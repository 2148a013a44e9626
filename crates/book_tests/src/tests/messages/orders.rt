//! What is read of order messages: what each asks of the book, or its one fault.
use super::texts::{BUY, CANCEL, LOGON, LONGEST, bytes_of};
use fix_orders::decode;
use std::alloc::Global;
use std::test::Fail;
use venue_model::SessionRejectReason::{
    self, TagAppearsMoreThanOnce, TagNotDefined, ValueIncorrect,
};
use venue_model::{Command, OrdType, RefMsgType, Side, Symbol, TimeInForce};

/// SendingTime (52) of all messages here.
const TIME: u64 = 20_250_102_093_000;

/// Orders with a fault: why each is rejected, and RefTagID (371).
const FAULTS: [(&str, SessionRejectReason, u32); 3] = [
    (
        "8=FIX.4.4|9=102|35=D|49=C1|56=VENUE|34=2|52=20250102-09:30:00|11=1|55=ABC|54=3|\
        60=20250102-09:30:00|38=100|40=2|44=50|10=100|",
        ValueIncorrect,
        54,
    ),
    (
        "8=FIX.4.4|9=102|35=D|49=C1|56=VENUE|34=2|52=20250102-09:30:00|11=1|54=1|\
        60=20250102-09:30:00|38=100|38=100|40=2|44=50|10=046|",
        TagAppearsMoreThanOnce,
        38,
    ),
    (LONGEST, TagNotDefined, 58),
];

/// The command of a text.
fn read(alloc: Global, text: &str) -> Result<Command, Fail> {
    let bytes = bytes_of(alloc, text)?;
    Ok(decode(&bytes, true))
}

#[test]
fn first_acknowledgement(rt: HostRuntime) -> Result<(), Fail> {
    let Command::New {
        sending_time,
        order,
    } = read(rt.alloc(), BUY)?
    else {
        return Err(Fail::from("no order"));
    };
    let abc = Symbol::new(b"ABC").ok_or("no symbol")?;
    assert_eq!(rt; sending_time, TIME);
    assert_eq!(rt; (order.cl_ord_id, order.quantity), (1, 100));
    assert!(rt; order.symbol.is(&abc));
    assert_eq!(rt; order.side, Side::Buy);
    assert_eq!(rt; order.ord_type, OrdType::Limit { price: 50 });
    assert_eq!(rt; order.time_in_force, TimeInForce::Day);
    Ok(())
}

#[test]
fn cancel_request(rt: HostRuntime) -> Result<(), Fail> {
    let Command::Cancel {
        sending_time,
        request,
    } = read(rt.alloc(), CANCEL)?
    else {
        return Err(Fail::from("no cancel"));
    };
    let abc = Symbol::new(b"ABC").ok_or("no symbol")?;
    assert_eq!(rt; sending_time, TIME);
    assert_eq!(rt; (request.cl_ord_id, request.orig_cl_ord_id), (2, 1));
    assert!(rt; request.symbol.is(&abc));
    assert_eq!(rt; request.side, Side::Buy);
    Ok(())
}

/// Whether the one fault of a text is of this tag, and the order is rejected for this reason.
fn is_rejected(
    alloc: Global,
    text: &str,
    reason: SessionRejectReason,
    tag: u32,
) -> Result<bool, Fail> {
    let Command::Malformed { fault, .. } = read(alloc, text)? else {
        return Err(Fail::from("no fault"));
    };
    let is_second = fault.ref_seq == 2 && fault.ref_type == RefMsgType::NewOrderSingle;
    Ok(is_second && fault.reason == reason && fault.tag == tag)
}

#[test]
fn first_fault_of_an_order(rt: HostRuntime) -> Result<(), Fail> {
    for (text, reason, tag) in &FAULTS {
        let is_rejected = is_rejected(rt.alloc(), text, *reason, *tag)?;
        assert!(rt; is_rejected, "{text}");
    }
    Ok(())
}

#[test]
fn void(rt: HostRuntime) -> Result<(), Fail> {
    assert!(rt; matches!(read(rt.alloc(), LOGON)?, Command::Void));
    let mut bytes = bytes_of(rt.alloc(), BUY)?;
    bytes.extend_from_slice(b"8")?;
    assert!(rt; matches!(decode(&bytes, true), Command::Void));
    Ok(())
}
