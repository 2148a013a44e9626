//! What those at the table know. No value of these types is ever made: they stand in views, which exist in proofs
//! alone.
use crate::report::PlacedOutput;
use std::collections::LinkedList;
use venue_model::Entry;

/// What a person is for. A gateway has its number, 1 to 8.
pub enum Role {
    /// The business processor.
    Process,
    /// The unmarshaller.
    Unmarshal,
    /// The journaller.
    Journal,
    /// The marshaller.
    Marshal,
    /// The gateway of this number.
    Gateway(u64),
}

/// A publication: the sequence, and the entry that stands there.
pub struct Sent {
    pub sequence: u64,
    pub entry: Entry,
}

/// A load: the place of the word, and the value that was found.
pub struct Load {
    pub place: u64,
    pub value: u64,
}

/// The row under way: its sequence or place, and the words stored so far in it, in order, of the message, the command,
/// the address or the text. Of the processor the place is always the published word.
pub struct Part {
    pub sequence: u64,
    pub words: LinkedList<u64>,
}

/// One gateway or one stage.
pub struct Person {
    pub role: Role,
    /// The entries that it knows to be the log's first.
    pub seen: LinkedList<Entry>,
    /// The value of the control word that it alone stores: of unmarshaller, journaller and processor the sequence of
    /// the next entry, of the marshaller and of a gateway the place of the next output. All below it is done.
    pub sequence: u64,
    /// What it published, in order.
    pub mine: LinkedList<Sent>,
    /// The sequences that it claimed and hasn't published.
    pub claims: LinkedList<u64>,
    /// All its loads, in order.
    pub loads: LinkedList<Load>,
    /// The row that it has under its hands. `row.sequence` says which row that is; of unmarshaller and marshaller those
    /// from `sequence` up to it stand whole.
    pub row: Part,
    /// The report that the processor puts, or that the marshaller took to copy it: the slot of its row is out.
    pub out: Option<PlacedOutput>,
}

/// The persons of one seat: one while it is in use, several while seats meet, all at the start, none when it is spent.
/// Where there is one, the logic and the history that the rings were opened with stand beside them.
pub struct View<L> {
    pub logic: Option<L>,
    pub base: LinkedList<Entry>,
    pub people: LinkedList<Person>,
}
