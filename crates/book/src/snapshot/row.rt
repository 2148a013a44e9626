//! The row of a resting order in a snapshot.
ghost use Rattle.std.specs.Prelude.{◌≡◌, ◌≢◌, ◌+◌, ◌≤◌, true, false, IfSome, IfNone, length};
ghost use Rattle.std.specs.List.{list_any};
ghost use Rattle.std.specs.Str.{bytes_eq};
ghost use Rattle.venue_model.specs.declared.orders.Order.{Order};
ghost use Rattle.venue_model.specs.declared.orders.Side.{Side};
ghost use Rattle.venue_model.specs.Spelling.{AreSymbols};
ghost use Rattle.fix_orders.specs.Writing.{Puts};
ghost use Rattle.book.specs.Rows.{side_byte, row_of, row_bytes};
ghost use Rattle.book.specs.Spelled.{FitsRow};
ghost use Rattle.book.specs.Standing.{InRange};

use crate::listing::number_of;
use crate::snapshot::numbers::{eight, four, one, put_eight, put_four, put_one};
use venue_model::{Order, Side, Symbol};

/// The numbers of a resting order as its 47 bytes spell them, each big-endian. Any 47 bytes are those of one row.
#[derive(Clone, Copy)]
pub(crate) struct Row {
    /// OrderID (37), 8 bytes.
    pub(crate) id: u64,
    /// The gateway of its client, 1 byte.
    pub(crate) client: u8,
    /// ClOrdID (11), 8 bytes.
    pub(crate) cl_ord_id: u64,
    /// The place of its symbol in the venue's table, from 0, 1 byte.
    pub(crate) symbol: u8,
    /// Side (54) as a number, 1 byte: 1 for a buy, 2 for a sell.
    pub(crate) side: u8,
    /// Price (44) in ticks, 4 bytes.
    pub(crate) price: u32,
    /// OrderQty (38), 4 bytes.
    pub(crate) total: u32,
    /// CumQty (14), 4 bytes.
    pub(crate) cum: u32,
    /// The sum over its fills of quantity times price, 8 bytes.
    pub(crate) notional: u64,
    /// Its place in time, 8 bytes.
    pub(crate) stamp: u64,
}

impl Row {
    /// The row of an order.
    pub(crate) fn of(symbols: &[Symbol], order: &Order) -> Row
        requires table { AreSymbols symbols.now }
        requires range { InRange order.now }
        ensures { result ≡ row_of symbols.now order.now }
    {
        Row {
            id: order.id,
            client: order.client,
            cl_ord_id: order.cl_ord_id,
            symbol: number_of(symbols, &order.symbol) as u8,
            side: side_byte(order.side),
            price: order.price as u32,
            total: order.total as u32,
            cum: order.cum as u32,
            notional: order.notional,
            stamp: order.stamp,
        }
    }

    /// The row that 47 bytes spell.
    pub(crate) fn read(bytes: &[u8]) -> Row
        requires { length bytes.now ≡ 47 }
        ensures spelled { row_bytes result ≡ bytes.now }
        ensures small { FitsRow result }
    {
        Row {
            id: eight(&bytes[..8]),
            client: one(&bytes[8..9]),
            cl_ord_id: eight(&bytes[9..17]),
            symbol: one(&bytes[17..18]),
            side: one(&bytes[18..19]),
            price: four(&bytes[19..23]),
            total: four(&bytes[23..27]),
            cum: four(&bytes[27..31]),
            notional: eight(&bytes[31..39]),
            stamp: eight(&bytes[39..47]),
        }
    }

    /// The order that has this row, of one of these symbols. `None` where no order has it.
    pub(crate) fn order(&self, symbols: &[Symbol]) -> Option<Order>
        requires { AreSymbols symbols.now }
        ensures row { IfSome result (λ o. row_of symbols.now o ≡ self.now) }
        ensures known { IfSome result (λ o. list_any (bytes_eq o.symbol) symbols.now ≡ true) }
        ensures limit { IfSome result (λ o. o.is_market ≡ false) }
        ensures none { IfNone result ((o : Order) → list_any (bytes_eq o.symbol) symbols.now ≡ true
            → row_of symbols.now o ≢ self.now) }
    {
        let symbol = *symbols.get(self.symbol as usize)?;
        let side = side_of(self.side)?;
        Some(Order {
            id: self.id,
            client: self.client,
            cl_ord_id: self.cl_ord_id,
            symbol,
            side,
            is_market: false,
            price: self.price as u64,
            total: self.total as u64,
            cum: self.cum as u64,
            notional: self.notional,
            stamp: self.stamp,
        })
    }

    /// Writes its 47 bytes from `at` on, and answers where they end.
    pub(crate) fn put(&self, buf: &mut [u8], at: usize) -> usize
        requires { at + 47 ≤ length buf.old }
        ensures puts { Puts buf.old buf.new at result (row_bytes self.now) }
        ensures long { result ≡ at + 47 }
    {
        let end = put_eight(buf, at, self.id);
        let end = put_one(buf, end, self.client);
        let end = put_eight(buf, end, self.cl_ord_id);
        let end = put_one(buf, end, self.symbol);
        let end = put_one(buf, end, self.side);
        let end = put_four(buf, end, self.price);
        let end = put_four(buf, end, self.total);
        let end = put_four(buf, end, self.cum);
        let end = put_eight(buf, end, self.notional);
        put_eight(buf, end, self.stamp)
    }
}

/// Side (54) as a byte of a row.
fn side_byte(side: Side) -> u8
    ensures { result ≡ side_byte side }
{
    match side {
        Side::Buy => 1,
        Side::Sell => 2,
    }
}

/// The side of this byte.
fn side_of(number: u8) -> Option<Side>
    ensures some { IfSome result (λ side. side_byte side ≡ number) }
    ensures none { IfNone result ((side : Side) → side_byte side ≢ number) }
{
    match number {
        1 => Some(Side::Buy),
        2 => Some(Side::Sell),
        _ => None,
    }
}
