//! The writer of a snapshot.
ghost use Rattle.std.specs.Prelude.{◌≡◌, ◌+◌, ◌*◌, ◌≤◌, ◌++◌, length, drop};
ghost use Rattle.std.specs.List.{flat_map};
ghost use Rattle.fix_orders.specs.Writing.{Puts};
ghost use Rattle.book.specs.Listing.{listing};
ghost use Rattle.book.specs.Rows.{number_bytes, orders_bytes};
ghost use Rattle.book.specs.Snapshots.{head_bytes, snapshot_bytes};

use crate::book::Book;
use crate::snapshot::numbers::{put_eight, put_two};
use crate::snapshot::row::Row;

impl Book {
    /// Writes the snapshot of its state to the front of a buffer, and answers how long it is: 82 bytes, and 47 for each
    /// order that rests. It is that of a book behind so many commands, which told so many outputs; neither count is
    /// known here. It takes no memory.
    pub fn snapshot(&self, commands: u64, outputs: u64, buf: &mut [u8]) -> usize // promises 3, 15
        requires room { 82 + 47 * length self.now.state.orders ≤ length buf.old }
        ensures long { result ≡ 82 + 47 * length self.now.state.orders }
        ensures written { buf.new ≡ snapshot_bytes self.now.limits.symbols commands outputs self.now.state.greatest
            (listing self.now.limits.symbols self.now.state.orders) ++ drop result buf.old }
    {
        let end = self.put_head(commands, outputs, buf);
        self.put_orders(buf, end)
    }

    /// Writes the numbers in front.
    fn put_head(&self, commands: u64, outputs: u64, buf: &mut [u8]) -> usize
        requires { 82 ≤ length buf.old }
        ensures puts { Puts buf.old buf.new 0 result
            (head_bytes commands outputs self.now.state.greatest (length self.now.state.orders)) }
        ensures long { result ≡ 82 }
    {
        let end = put_eight(buf, 0, commands);
        let end = put_eight(buf, end, outputs);
        let end = self.put_greatest(buf, end);
        put_two(buf, end, self.orders.len() as u16)
    }

    /// Writes each client's greatest ClOrdID.
    fn put_greatest(&self, buf: &mut [u8], at: usize) -> usize
        requires { at + 64 ≤ length buf.old }
        ensures puts { Puts buf.old buf.new at result (flat_map (number_bytes 8) self.now.state.greatest) }
        ensures long { result ≡ at + 64 }
    {
        let mut end = at;
        for name in &self.greatest {
            end = put_eight(buf, end, *name);
        }
        end
    }

    /// Writes the rows of all orders, in the order in which they are listed.
    fn put_orders(&self, buf: &mut [u8], at: usize) -> usize
        requires { at + 47 * length self.now.state.orders ≤ length buf.old }
        ensures puts { Puts buf.old buf.new at result
            (orders_bytes self.now.limits.symbols (listing self.now.limits.symbols self.now.state.orders)) }
        ensures long { result ≡ at + 47 * length self.now.state.orders }
        ensures each { length (listing self.now.limits.symbols self.now.state.orders) ≡ length self.now.state.orders }
    {
        let symbols = self.logic.symbols();
        let mut upto = at;
        let mut from = None;
        for _ in 0..self.orders.len() {
            let order = self.after(from).unwrap();
            upto = Row::of(symbols, &order).put(buf, upto);
            from = Some(order);
        }
        upto
    }
}
