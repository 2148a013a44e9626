//! The arena's nodes: at each place an order with its neighbours in its level and its ladder, or nothing.
ghost use Rattle.std.specs.Prelude.{◌≡◌, ◌<◌, length, MatchOption, slice_set};
ghost use Rattle.price_levels.specs.Arena.{set_next, set_prev, IsWithinNodes};

use venue_model::Order;

/// An order, the places of its neighbours in its level, the one before it and the one behind it, and its ladder. Of a
/// free place nobody reads what stands beside the order.
#[derive(Clone, Copy)]
pub(crate) struct Node {
    pub(crate) order: Option<Order>,
    pub(crate) prev: Option<usize>,
    pub(crate) next: Option<usize>,
    pub(crate) ladder: usize,
}

/// A free place.
pub(crate) const VACANT: Node = Node {
    order: None,
    prev: None,
    next: None,
    ladder: 0,
};

/// The order behind the one at a place, where there is one, is another now.
pub(crate) fn set_next(nodes: &mut Vec<Node>, place: Option<usize>, next: Option<usize>)
    requires { IsWithinNodes nodes.old.items place }
    ensures { nodes.new.items ≡ set_next nodes.old.items place next }
{
    if let Some(place) = place {
        nodes[place].next = next;
    }
}

/// The order before the one at a place, where there is one, is another now.
pub(crate) fn set_prev(nodes: &mut Vec<Node>, place: Option<usize>, prev: Option<usize>)
    requires { IsWithinNodes nodes.old.items place }
    ensures { nodes.new.items ≡ set_prev nodes.old.items place prev }
{
    if let Some(place) = place {
        nodes[place].prev = prev;
    }
}
