//! What the slots of the output ring hold: one box for each row, with an output and its place. The processor puts a
//! full one in, the marshaller takes it out to copy the output, and brings it back.
ghost use Rattle.std.specs.Prelude.{◌≡◌, vec_len, IfOk};

use std::alloc::{AllocError, Global};
use venue_model::{Malformed, Output, RefMsgType, SessionRejectReason};

/// An output, and its place among all outputs.
#[derive(Clone, Copy)]
pub struct PlacedOutput {
    pub output: Output,
    pub place: u64,
}

/// What a slot of the table holds.
pub(crate) type Slot = Box<PlacedOutput>;

/// An output that says nothing: what stands in a place before one was put there or read to it. Nobody reads it.
pub fn blank_output() -> Output {
    let fault = Malformed {
        reason: SessionRejectReason::RequiredTagMissing,
        tag: 0,
        ref_seq: 0,
        ref_type: RefMsgType::NewOrderSingle,
    };
    Output {
        to: 0,
        cause: 0,
        sending_time: 0,
        report: venue_model::Report::SessionReject(fault),
    }
}

/// What a box holds before an output was put into it.
fn blank() -> PlacedOutput {
    PlacedOutput {
        output: blank_output(),
        place: 0,
    }
}

/// A box in which an output can be put.
pub(crate) fn blank_box(alloc: Global) -> Result<Slot, AllocError> {
    Ok(Box::new(alloc, blank())?)
}

/// So many of them.
pub(crate) fn blank_boxes(alloc: Global, count: usize) -> Result<Vec<Slot>, AllocError>
    ensures count { IfOk result (λ boxes. vec_len boxes ≡ count) }
{
    let mut boxes = Vec::with_capacity(alloc, count)?;
    for row in 0..count {
        boxes.push(blank_box(alloc)?)?;
    }
    Ok(boxes)
}
