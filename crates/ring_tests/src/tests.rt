//! Small rings: all stages on one thread, and gateways and stages on a thread each.

mod ends;
mod five_in_one_poll;
mod four_gateways;
mod gateways_meet;
mod one_gateway_ring;
mod output_ring_of_two;
mod resting;
mod ring_of_two;
mod seats_alone;
mod sessions;
mod side_by_side;
mod staff;
mod trading;
mod waiting;
