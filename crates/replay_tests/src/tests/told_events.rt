//! What is told of journals in memory: the worked rows, a journal that is broken off or missing, and outputs that fail.

mod following;

use disks::{MemDisk, MemFolder, Script};
use events::{EventsWords, events, events_file};
use std::alloc::{AllocError, Global};
use std::io;
use std::io::{ErrorKind, Write};
use std::test::Fail;

/// A journal of version 3, without its closed gate: C1 sells 100 at 50.
pub(crate) const SALE: &[u8; 150] =
    b"VNJL\x00\x00\x00\x03\x00\x00\x00\x00\x00\x00\x00\x00\x01\x00\x00\x00\x81\x01\x01\x00}\
    8=FIX.4.4\x019=102\x0135=D\x0149=C1\x0156=VENUE\x0134=2\x0152=20250102-09:30:00\x0111=1\x01\
    55=ABC\x0154=2\x0160=20250102-09:30:00\x0138=100\x0140=2\x0144=50\x0110=099\x01";

/// What is told of it.
pub(crate) const SALE_TOLD: &str = "command 0 C1 D ABC -\n\
    output 0 C1 35=8|52=20250102-09:30:00|37=1|17=1|150=0|39=0|11=1|55=ABC|54=2|38=100|44=50|151=100|14=0|6=0|\n\
    level ABC 2 50 100 1\n";

/// Another block behind the sale, and what is told of its command.
#[derive(Clone, Copy)]
pub(crate) struct Row {
    pub(crate) name: &'static str,
    pub(crate) block: &'static [u8],
    pub(crate) told: &'static str,
}

pub(crate) const ROWS: [Row; 11] = [
    Row {
        name: "takes_some",
        block: b"\x01\x00\x00\x00\x80\x01\x02\x00|\
        8=FIX.4.4\x019=101\x0135=D\x0149=C2\x0156=VENUE\x0134=2\x0152=20250102-09:30:00\x0111=1\x01\
        55=ABC\x0154=1\x0160=20250102-09:30:00\x0138=30\x0140=2\x0144=50\x0110=052\x01",
        told: "command 1 C2 D ABC -\n\
        output 1 C2 35=8|52=20250102-09:30:00|37=2|17=2|150=0|39=0|11=1|55=ABC|54=1|38=30|44=50|151=30|14=0|6=0|\n\
        output 2 C1 35=8|52=20250102-09:30:00|37=1|17=3|150=F|39=1|11=1|55=ABC|54=2|38=100|44=50|32=30|31=50|151=70|14=30|6=50|\n\
        output 3 C2 35=8|52=20250102-09:30:00|37=2|17=4|150=F|39=2|11=1|55=ABC|54=1|38=30|44=50|32=30|31=50|151=0|14=30|6=50|\n\
        level ABC 2 50 70 1\n",
    },
    Row {
        name: "takes_all",
        block: b"\x01\x00\x00\x00\x81\x01\x02\x00}\
        8=FIX.4.4\x019=102\x0135=D\x0149=C2\x0156=VENUE\x0134=2\x0152=20250102-09:30:00\x0111=1\x01\
        55=ABC\x0154=1\x0160=20250102-09:30:00\x0138=150\x0140=2\x0144=50\x0110=104\x01",
        told: "command 1 C2 D ABC -\n\
        output 1 C2 35=8|52=20250102-09:30:00|37=2|17=2|150=0|39=0|11=1|55=ABC|54=1|38=150|44=50|151=150|14=0|6=0|\n\
        output 2 C1 35=8|52=20250102-09:30:00|37=1|17=3|150=F|39=2|11=1|55=ABC|54=2|38=100|44=50|32=100|31=50|151=0|14=100|6=50|\n\
        output 3 C2 35=8|52=20250102-09:30:00|37=2|17=4|150=F|39=1|11=1|55=ABC|54=1|38=150|44=50|32=100|31=50|151=50|14=100|6=50|\n\
        level ABC 2 50 0 0\n\
        level ABC 1 50 50 1\n",
    },
    Row {
        name: "rests_below",
        block: b"\x01\x00\x00\x00\x80\x01\x02\x00|\
        8=FIX.4.4\x019=101\x0135=D\x0149=C2\x0156=VENUE\x0134=2\x0152=20250102-09:30:00\x0111=1\x01\
        55=ABC\x0154=1\x0160=20250102-09:30:00\x0138=30\x0140=2\x0144=49\x0110=060\x01",
        told: "command 1 C2 D ABC -\n\
        output 1 C2 35=8|52=20250102-09:30:00|37=2|17=2|150=0|39=0|11=1|55=ABC|54=1|38=30|44=49|151=30|14=0|6=0|\n\
        level ABC 1 49 30 1\n",
    },
    Row {
        name: "finds_none",
        block: b"\x01\x00\x00\x00\x85\x01\x02\x00\x81\
        8=FIX.4.4\x019=106\x0135=D\x0149=C2\x0156=VENUE\x0134=2\x0152=20250102-09:30:00\x0111=1\x01\
        55=ABC\x0154=1\x0160=20250102-09:30:00\x0138=30\x0140=2\x0144=49\x0159=3\x0110=032\x01",
        told: "command 1 C2 D ABC -\n\
        output 1 C2 35=8|52=20250102-09:30:00|37=2|17=2|150=0|39=0|11=1|55=ABC|54=1|38=30|44=49|151=30|14=0|6=0|\n\
        output 2 C2 35=8|52=20250102-09:30:00|37=2|17=3|150=4|39=4|11=1|55=ABC|54=1|38=30|44=49|151=0|14=0|6=0|\n",
    },
    Row {
        name: "cancels",
        block: b"\x01\x00\x00\x00z\x01\x01\x00v\
        8=FIX.4.4\x019=96\x0135=F\x0149=C1\x0156=VENUE\x0134=3\x0152=20250102-09:30:00\x0111=2\x01\
        41=1\x0155=ABC\x0154=2\x0160=20250102-09:30:00\x0138=100\x0110=056\x01",
        told: "command 1 C1 F ABC -\n\
        output 1 C1 35=8|52=20250102-09:30:00|37=1|17=2|150=4|39=4|11=2|41=1|55=ABC|54=2|38=100|44=50|151=0|14=0|6=0|\n\
        level ABC 2 50 0 0\n",
    },
    Row {
        name: "is_refused",
        block: b"\x01\x00\x00\x00z\x01\x01\x00v\
        8=FIX.4.4\x019=96\x0135=F\x0149=C1\x0156=VENUE\x0134=3\x0152=20250102-09:30:00\x0111=2\x01\
        41=7\x0155=ABC\x0154=2\x0160=20250102-09:30:00\x0138=100\x0110=062\x01",
        told: "command 1 C1 F ABC -\n\
        output 1 C1 35=9|52=20250102-09:30:00|37=NONE|11=2|41=7|39=8|434=1|102=1|\n",
    },
    Row {
        name: "moves",
        block: b"\x01\x00\x00\x00\x85\x01\x01\x00\x81\
        8=FIX.4.4\x019=106\x0135=G\x0149=C1\x0156=VENUE\x0134=3\x0152=20250102-09:30:00\x0111=2\x01\
        41=1\x0155=ABC\x0154=2\x0160=20250102-09:30:00\x0138=80\x0140=2\x0144=51\x0110=024\x01",
        told: "command 1 C1 G ABC -\n\
        output 1 C1 35=8|52=20250102-09:30:00|37=1|17=2|150=5|39=0|11=2|41=1|55=ABC|54=2|38=80|44=51|151=80|14=0|6=0|\n\
        level ABC 2 50 0 0\n\
        level ABC 2 51 80 1\n",
    },
    Row {
        name: "shrinks",
        block: b"\x01\x00\x00\x00\x85\x01\x01\x00\x81\
        8=FIX.4.4\x019=106\x0135=G\x0149=C1\x0156=VENUE\x0134=3\x0152=20250102-09:30:00\x0111=2\x01\
        41=1\x0155=ABC\x0154=2\x0160=20250102-09:30:00\x0138=80\x0140=2\x0144=50\x0110=023\x01",
        told: "command 1 C1 G ABC -\n\
        output 1 C1 35=8|52=20250102-09:30:00|37=1|17=2|150=5|39=0|11=2|41=1|55=ABC|54=2|38=80|44=50|151=80|14=0|6=0|\n\
        level ABC 2 50 80 1\n",
    },
    Row {
        name: "grows",
        block: b"\x01\x00\x00\x00\x86\x01\x01\x00\x82\
        8=FIX.4.4\x019=107\x0135=G\x0149=C1\x0156=VENUE\x0134=3\x0152=20250102-09:30:00\x0111=2\x01\
        41=1\x0155=ABC\x0154=2\x0160=20250102-09:30:00\x0138=120\x0140=2\x0144=50\x0110=067\x01",
        told: "command 1 C1 G ABC -\n\
        output 1 C1 35=8|52=20250102-09:30:00|37=1|17=2|150=5|39=0|11=2|41=1|55=ABC|54=2|38=120|44=50|151=120|14=0|6=0|\n\
        level ABC 2 50 120 1\n",
    },
    Row {
        name: "has_a_fault",
        block: b"\x01\x00\x00\x00\x7f\x01\x01\x00{\
        8=FIX.4.4\x019=100\x0135=D\x0149=C1\x0156=VENUE\x0134=3\x0152=20250102-09:30:00\x0111=2\x01\
        55=ABC\x0154=2\x0160=20250102-09:30:00\x0138=0\x0140=2\x0144=50\x0110=002\x01",
        told: "command 1 C1 D - -\n\
        output 1 C1 35=3|52=20250102-09:30:00|45=3|371=38|372=D|373=5|\n",
    },
    Row {
        name: "no_message",
        block: b"\x01\x00\x00\x00\x05\x01\x01\x00\x01\x07",
        told: "command 1 C1 - - -\n",
    },
];

/// A file whose calls all do what they are asked.
const GOOD: Script = Script {
    most: u32::MAX,
    interrupts: false,
    good: u64::MAX,
};

/// The journal of a row.
fn journal_of(alloc: Global, row: &Row) -> Result<Vec<u8>, AllocError> {
    let mut journal = Vec::from_slice(alloc, SALE)?;
    journal.extend_from_slice(row.block)?;
    journal.push(0)?;
    Ok(journal)
}

/// The words that ask for all events but for so many first ones.
pub(crate) fn words_after(alloc: Global, after: u64) -> Result<EventsWords, Fail> {
    let line = match after {
        0 => String::from_str(alloc, "J once ABC")?,
        _ => format!(in alloc; "J once --after {after} ABC")?,
    };
    let mut words = Vec::new(alloc);
    for word in line.as_str().split(' ') {
        words.push(String::from_str(alloc, word)?)?;
    }
    Ok(EventsWords::read(alloc, &words)?)
}

/// The status, and what was printed to the output and to the error line.
#[derive(Drop)]
pub(crate) struct Said {
    pub(crate) status: u8,
    pub(crate) out: Vec<u8>,
    pub(crate) err: Vec<u8>,
}

impl Said {
    /// Whether this was said.
    pub(crate) fn is(&self, status: u8, out: &str, err: &str) -> bool {
        self.status == status && is_same(&self.out, out) && is_same(&self.err, err)
    }
}

/// Whether these bytes are those of the text.
fn is_same(bytes: &[u8], text: &str) -> bool {
    bytes == text.as_bytes()
}

/// Tells the events of the journal in these bytes.
fn tell(alloc: Global, journal: &[u8], after: u64) -> Result<Said, Fail> {
    let words = words_after(alloc, after)?;
    let disk = MemDisk::new(alloc, journal)?;
    let mut err = Vec::new(alloc);
    let (status, _, out) = events(alloc, &words, disk, Vec::new(alloc), &mut err);
    Ok(Said { status, out, err })
}

/// All of it is told, and nothing of the first ones that are passed over.
fn is_told(alloc: Global, row: &Row) -> Result<bool, Fail> {
    let journal = journal_of(alloc, row)?;
    let all = format!(in alloc; "{SALE_TOLD}{}", row.told)?;
    Ok(
        tell(alloc, &journal, 0)?.is(0, all.as_str(), "")
            && tell(alloc, &journal, 1)?.is(0, row.told, "")
            && tell(alloc, &journal, 2)?.is(0, "", ""),
    )
}

#[test]
fn worked_rows_are_told(rt: HostRuntime) -> Result<(), Fail> {
    for row in &ROWS {
        let is_told = is_told(rt.alloc(), row)?;
        assert!(rt; is_told, "{}", row.name);
    }
    Ok(())
}

/// Of a journal that is broken off, the whole block before that place is told, and the fault is its gate's.
#[test]
fn what_stands_before_damage_is_told(rt: HostRuntime) -> Result<(), Fail> {
    let journal = journal_of(rt.alloc(), &ROWS[0])?;
    for size in [150, 151, 152, 200, 282] {
        let bytes = journal.get(..size).ok_or("no such size")?;
        let said = tell(rt.alloc(), bytes, 0)?;
        assert!(rt;
            said.is(1, SALE_TOLD, "venue-events: journal fault 42 at 150\n"),
            "{size}"
        );
    }
    Ok(())
}

/// Without the file of the journal there is nothing but the fault's line.
#[test]
fn a_missing_journal_is_refused(rt: HostRuntime) -> Result<(), Fail> {
    let words = words_after(rt.alloc(), 0)?;
    let mut folder = MemFolder::new(rt.alloc(), None, GOOD, false);
    let mut err = Vec::new(rt.alloc());
    let out = Vec::new(rt.alloc());
    let (status, _, out) = events_file(rt.alloc(), &words, &mut folder, out, &mut err);
    let said = Said { status, out, err };
    assert!(rt; said.is(1, "", "venue-events: journal fault 41\n"));
    Ok(())
}

/// An output with room for so many bytes, whose flush may fail.
#[derive(Drop)]
struct Output {
    taken: Vec<u8>,
    room: usize,
    keeps: bool,
}

impl Write for Output {
    fn write(&mut self, buf: &[u8]) -> io::Result<usize> {
        let count = buf.len().min(self.room);
        if count == 0 && !buf.is_empty() {
            return Err(io::Error::from(ErrorKind::StorageFull));
        }
        self.taken.extend_from_slice(&buf[..count])?;
        self.room -= count;
        Ok(count)
    }

    fn flush(&mut self) -> io::Result<()> {
        if self.keeps {
            return Err(io::Error::from(ErrorKind::BrokenPipe));
        }
        Ok(())
    }
}

/// Tells the events of a row to such an output: the status, what it took, and the error line.
fn tell_to(alloc: Global, row: &Row, room: usize, keeps: bool) -> Result<Said, Fail> {
    let words = words_after(alloc, 0)?;
    let disk = MemDisk::new(alloc, &journal_of(alloc, row)?)?;
    let taken = Vec::new(alloc);
    let out = Output { taken, room, keeps };
    let mut err = Vec::new(alloc);
    let (status, _, out) = events(alloc, &words, disk, out, &mut err);
    let out = out.taken;
    Ok(Said { status, out, err })
}

/// A full output has taken what it has room for, and ends it without a line.
#[test]
fn a_full_output_ends_it(rt: HostRuntime) -> Result<(), Fail> {
    let row = &ROWS[0];
    let all = format!(in rt.alloc(); "{SALE_TOLD}{}", row.told)?;
    for room in [0, 1, 20, 21, 200, all.len().wrapping_sub(1)] {
        let part = all.as_str().get(..room).ok_or("no such room")?;
        assert!(rt;
            tell_to(rt.alloc(), row, room, false)?.is(1, part, ""),
            "{room}"
        );
    }
    assert!(rt; tell_to(rt.alloc(), row, all.len(), false)?.is(0, all.as_str(), ""));
    Ok(())
}

/// So does a flush that fails, once all is printed.
#[test]
fn a_flush_that_fails_ends_it(rt: HostRuntime) -> Result<(), Fail> {
    let row = &ROWS[0];
    let all = format!(in rt.alloc(); "{SALE_TOLD}{}", row.told)?;
    assert!(rt; tell_to(rt.alloc(), row, 1_000, true)?.is(1, all.as_str(), ""));
    Ok(())
}
