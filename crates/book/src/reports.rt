//! Outputs of a command, as the book tells them.
ghost use Rattle.std.specs.Prelude.{◌≡◌, ◌+◌, ◌<◌, [], ◌∷◌, ◌++◌};
ghost use Rattle.std.specs.Vec.{vec_len, vec_capacity};
ghost use Rattle.venue_model.specs.Match.{output, exec};

use venue_model::{Cause, ExecType, ExecutionReport, Order, Output, Report};

/// An output of this cause to a gateway.
pub(crate) fn output(cause: Cause, gateway: u8, report: Report) -> Output
    ensures { result ≡ output cause gateway report }
{
    Output {
        to: gateway,
        cause: cause.sequence,
        sending_time: cause.sending_time,
        report,
    }
}

/// The execution report of an order, to its client.
pub(crate) fn exec(cause: Cause, exec_type: ExecType, order: &Order) -> Output
    ensures { result ≡ exec cause exec_type order.now }
{
    let report = ExecutionReport {
        exec_type,
        order: *order,
    };
    output(cause, order.client, Report::Exec(report))
}

/// Puts an output behind the others. There is room.
pub(crate) fn put<T: Copy>(out: &mut Vec<T>, output: &T)
    requires room { vec_len out.old < vec_capacity out.old }
    ensures items { out.new.items ≡ out.old.items ++ output.now ∷ [] }
    ensures len { vec_len out.new ≡ vec_len out.old + 1 }
    ensures capacity { vec_capacity out.new ≡ vec_capacity out.old }
{
    out.push_reserved(*output);
}

/// Tells an order's client of it. There is room.
pub(crate) fn tell(out: &mut Vec<Output>, cause: Cause, exec_type: ExecType, order: &Order)
    requires room { vec_len out.old < vec_capacity out.old }
    ensures items { out.new.items ≡ out.old.items ++ exec cause exec_type order.now ∷ [] }
    ensures len { vec_len out.new ≡ vec_len out.old + 1 }
    ensures capacity { vec_capacity out.new ≡ vec_capacity out.old }
{
    put(out, &exec(cause, exec_type, order));
}
