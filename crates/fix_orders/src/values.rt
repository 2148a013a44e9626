//! The values of an order message by tag.
ghost use Rattle.std.specs.Prelude.{◌≡◌, [], not};
ghost use Rattle.fix_orders.specs.Reading.{asks_market};
ghost use Rattle.fix_orders.specs.Values.{value_in, with_value, is_nothing};

use crate::tables::OrderTag;

/// The value of the first field of each tag, borrowed from its bytes; nothing where there is none.
#[derive(Clone, Copy, Debug)]
pub struct Values<'a> {
    by_tag: [&'a [u8]; 9],
}

impl<'a> Values<'a> {
    /// Nothing at any tag.
    pub fn new() -> Values<'a>
        ensures { (tag : OrderTag) → value_in result tag ≡ [] }
    {
        Values { by_tag: [&[]; 9] }
    }

    /// The value of a tag.
    pub fn get(&self, tag: OrderTag) -> &'a [u8]
        ensures { result.now ≡ value_in self.now tag }
    {
        self.by_tag[tag.place()]
    }

    /// Whether a tag has a value.
    pub fn has(&self, tag: OrderTag) -> bool
        ensures { result ≡ not (is_nothing (value_in self.now tag)) }
    {
        !self.get(tag).is_empty()
    }

    /// Whether OrdType (40) is 1: the message asks for a market order.
    pub fn ask_market(&self) -> bool
        ensures { result ≡ asks_market (value_in self.now OrderTag.OrdType) }
    {
        matches!(self.get(OrderTag::OrdType), b"1")
    }

    /// Keeps a value, where its tag has none.
    pub fn keep(&mut self, tag: OrderTag, value: &'a [u8])
        ensures { (t : OrderTag) → value_in self.new t ≡ with_value (value_in self.old) tag value.now t }
    {
        if !self.has(tag) {
            self.by_tag[tag.place()] = value;
        }
    }
}
