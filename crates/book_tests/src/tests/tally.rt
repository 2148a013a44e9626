//! How many outputs of each kind were told.

use venue_model::{
    CxlRejReason, CxlRejResponseTo, ExecType, ExecutionReport, OrdRejReason, OrderCancelReject,
    Output, Report,
};

/// How many kinds there are.
const KINDS: usize = 17;

/// For each kind how many outputs of it were told.
#[derive(Drop)]
pub struct Tally {
    counts: [u64; KINDS],
}

impl Tally {
    pub fn new() -> Tally {
        Tally { counts: [0; KINDS] }
    }

    pub fn count(&mut self, out: &[Output]) {
        for output in out {
            if let Some(count) = self.counts.get_mut(kind_of(&output.report)) {
                *count = count.wrapping_add(1);
            }
        }
    }

    /// How often the rarest kind was told.
    pub fn least(&self) -> u64 {
        let mut least = u64::MAX;
        for count in &self.counts {
            least = least.min(*count);
        }
        least
    }
}

fn kind_of(report: &Report) -> usize {
    match report {
        Report::Exec(report) => exec_kind(report),
        Report::CancelReject(reject) => reject_kind(reject),
        Report::SessionReject(_) => 16,
    }
}

/// The kind of an execution report, 0 to 9.
fn exec_kind(report: &ExecutionReport) -> usize {
    let is_market = report.order.is_market;
    match report.exec_type {
        ExecType::New => 0,
        ExecType::Trade { .. } if is_market => 1,
        ExecType::Trade { .. } => 2,
        ExecType::Canceled {
            orig_cl_ord_id: Some(_),
        } => 3,
        ExecType::Canceled { .. } if is_market => 4,
        ExecType::Canceled { .. } => 5,
        ExecType::Replaced { .. } => 6,
        ExecType::Rejected { reason } => match reason {
            OrdRejReason::BookFull => 7,
            OrdRejReason::UnknownSymbol => 8,
            OrdRejReason::DuplicateOrder => 9,
        },
    }
}

/// The kind of a refused cancel or replace, 10 to 15.
fn reject_kind(reject: &OrderCancelReject) -> usize {
    let reason = match reject.reason {
        CxlRejReason::UnknownOrder => 0,
        CxlRejReason::BrokerOption => 1,
        CxlRejReason::DuplicateClOrdId => 2,
    };
    match reject.response_to {
        CxlRejResponseTo::Cancel => 10 + reason,
        CxlRejResponseTo::CancelReplace => 13 + reason,
    }
}
