//! The book that a snapshot spells.
ghost use Rattle.std.specs.Prelude.{◌≡◌, ℕ, IfOk, IsErrOf};
ghost use Rattle.price_levels.specs.Stamps.{InStamps};
ghost use Rattle.book.specs.Listing.{listing};
ghost use Rattle.book.specs.Standing.{Below};
ghost use Rattle.book.specs.Snapshots.{SnapshotOf, NoSnapshot, snapshot_bytes};

use crate::book::Book;
use crate::logic::BookLogic;
use crate::resting::RestingOrders;
use crate::snapshot::fault::RestoreFault;
use crate::snapshot::head::Head;
use crate::snapshot::rows::put_rows;
use std::alloc::Global;
use venue_model::Limits;

/// A book as a snapshot spells it, and how many commands led to it and how many outputs they told.
#[derive(Drop)]
pub struct Restored {
    pub book: Book,
    /// At most 2^48.
    pub commands: u64,
    /// At most 8,194 a command.
    pub outputs: u64,
}

impl Book {
    /// The book of a venue with these limits that the bytes of a snapshot spell. `Memory` says nothing of the bytes.
    pub fn restore(alloc: Global, bytes: &[u8], limits: &Limits) -> Result<Book, RestoreFault> // promises 3, 15
        ensures limits { IfOk result (λ b. b.limits ≡ limits.now) }
        ensures spelled { IfOk result (λ b. (commands told : ℕ)
            × SnapshotOf limits.now.symbols b.state commands told bytes.now) }
        ensures stamps { IfOk result (λ b. InStamps b.state.orders) }
        ensures reads { IfOk result (λ b. b.reads ≡ 0) }
        ensures bad { IsErrOf result RestoreFault.BadSnapshot → NoSnapshot limits.now.symbols bytes.now }
    {
        match Restored::of(alloc, bytes, BookLogic::of(limits)) {
            Ok(restored) => Ok(restored.book),
            Err(fault) => Err(fault),
        }
    }
}

impl Restored {
    /// The book of a venue with this logic that the bytes of a snapshot spell, and the counts behind it: its own
    /// snapshot with these counts has the same bytes. `Memory` says nothing of the bytes.
    pub fn of(alloc: Global, bytes: &[u8], logic: BookLogic) -> Result<Restored, RestoreFault> // promise 3
        ensures limits { IfOk result (λ r. r.book.limits ≡ logic) }
        ensures spelled { IfOk result (λ r. SnapshotOf logic.symbols r.book.state r.commands r.outputs bytes.now) }
        ensures written { IfOk result (λ r. bytes.now ≡ snapshot_bytes logic.symbols r.commands r.outputs
            r.book.state.greatest (listing logic.symbols r.book.state.orders)) }
        ensures stamps { IfOk result (λ r. InStamps r.book.state.orders) }
        ensures below { IfOk result (λ r. Below r.commands r.book.state.orders) }
        ensures reads { IfOk result (λ r. r.book.reads ≡ 0) }
        ensures bad { IsErrOf result RestoreFault.BadSnapshot → NoSnapshot logic.symbols bytes.now }
    {
        let Some(head) = Head::read(bytes) else {
            return Err(RestoreFault::BadSnapshot);
        };
        let symbols = logic.symbols();
        let Ok((mut orders, counter)) = RestingOrders::new(alloc, symbols) else {
            return Err(RestoreFault::Memory);
        };
        if !put_rows(&bytes[82..], &head, symbols, &mut orders, &counter) {
            return Err(RestoreFault::BadSnapshot);
        }
        let book = Book::made(logic, orders, head.greatest, counter);
        Ok(Restored {
            book,
            commands: head.commands,
            outputs: head.outputs,
        })
    }
}
