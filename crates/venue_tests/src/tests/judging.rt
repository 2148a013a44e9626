//! What a journal says that members sent and were to be told, and whether their clients were told that.

use super::messages::from_venue;
use super::trading_days::limits;
use disks::MemDisk;
use fix_orders::body_of;
use journal::entries;
use replay::replay_whole;
use std::alloc::{AllocError, Global};
use std::test::Fail;
use venue_model::{Entry, ExecType, ExecutionReport, LONGEST_MESSAGE, Output, OutputType, Report};
use wires::MemWire;

/// What a journal holds and comes to, and from which entry on it is about one day.
#[derive(Drop)]
pub struct Ledger {
    alloc: Global,
    entries: Vec<Entry>,
    /// What comes of all of them.
    outputs: Vec<Output>,
    /// How many entries and outputs there were before the day.
    old_entries: usize,
    old_outputs: usize,
}

/// How many outputs a client was given, and the place behind the last of them.
#[derive(Clone, Copy)]
struct Given {
    count: usize,
    behind: usize,
}

impl Ledger {
    /// The journal that a crash leaves of this disk, all of it about one day.
    pub fn of(alloc: Global, disk: &MemDisk, fill: Option<u8>) -> Result<Ledger, Fail> {
        let mut left = disk.crash(fill)?;
        let entries = entries(alloc, &mut left)?;
        let outputs = replay_whole(alloc, &mut left, &limits(alloc)?)?.outputs;
        Ok(Ledger {
            alloc,
            entries,
            outputs,
            old_entries: 0,
            old_outputs: 0,
        })
    }

    /// The same about the day behind that of another one.
    pub fn behind(self, old: &Ledger) -> Ledger {
        Ledger {
            old_entries: old.entries.len(),
            old_outputs: old.outputs.len(),
            ..self
        }
    }

    /// How many commands there are.
    pub fn commands(&self) -> u64 {
        self.entries.len() as u64
    }

    /// The member's messages of the day, one behind the other.
    pub fn orders_of(&self, member: u8) -> Result<Vec<u8>, AllocError> {
        let mut orders = Vec::new(self.alloc);
        for entry in self.entries.iter().skip(self.old_entries) {
            if entry.gateway() == member {
                orders.extend_from_slice(entry.bytes())?;
            }
        }
        Ok(orders)
    }

    /// The outputs of the day.
    fn of_day(&self) -> &[Output] {
        self.outputs.get(self.old_outputs..).unwrap_or(&[])
    }

    /// How many outputs of the day go to the member.
    pub fn outputs_to(&self, member: u8) -> usize {
        let mut count = 0_usize;
        for output in self.of_day() {
            if output.to == member {
                count = count.wrapping_add(1);
            }
        }
        count
    }

    /// How many fills of the day go to the member.
    pub fn fills_to(&self, member: u8) -> usize {
        let mut count = 0_usize;
        for output in self.of_day() {
            if output.to == member && filled(output).is_some() {
                count = count.wrapping_add(1);
            }
        }
        count
    }

    /// Whether an order was filled on the day that had been there before it.
    pub fn has_old_fill(&self) -> bool {
        for output in self.of_day() {
            if let Some(id) = filled(output)
                && id <= self.old_entries as u64
            {
                return true;
            }
        }
        false
    }

    /// How many outputs of the day the member's clients were told, one client behind the other. Each was told its
    /// Logon, then one output to the member behind the other, and maybe its Logout, and nothing else. Before a client's
    /// first one there may be some that nobody was told, and behind its last.
    pub fn told(&self, member: u8, wires: &[MemWire]) -> Result<usize, Fail> {
        let mut all = Given {
            count: 0,
            behind: self.old_outputs,
        };
        for wire in wires {
            let given = self.told_by(member, wire.taken(), all.behind)?;
            all = Given {
                count: all.count.wrapping_add(given.count),
                behind: given.behind,
            };
        }
        Ok(all.count)
    }

    /// The same of one client, which was told these bytes, of the outputs from this place on.
    fn told_by(&self, member: u8, bytes: &[u8], from: usize) -> Result<Given, Fail> {
        let mut given = Given {
            count: 0,
            behind: from,
        };
        if bytes.is_empty() {
            return Ok(given);
        }
        let logon = from_venue(self.alloc, member, 'A', 1, b"98=0\x01108=0\x01141=Y\x01")?;
        let Some(mut rest) = bytes.strip_prefix(logon.as_slice()) else {
            return Err(Fail::new(format_args!("C{member} was told no Logon")));
        };
        for (place, output) in self.outputs.iter().enumerate().skip(from) {
            if output.to != member {
                continue;
            }
            let report = self.report(output, place, given.number())?;
            if let Some(others) = rest.strip_prefix(report.as_slice()) {
                rest = others;
                given = given.with(place);
            } else if 0 < given.count {
                break;
            }
        }
        let logout = from_venue(self.alloc, member, '5', given.number(), b"")?;
        if rest.is_empty() || rest == logout.as_slice() {
            return Ok(given);
        }
        Err(Fail::new(format_args!(
            "C{member} was told what isn't in the journal, behind {} reports",
            given.count
        )))
    }

    /// The output of this place, as it is told by the message of this number.
    fn report(&self, output: &Output, place: usize, number: u64) -> Result<Vec<u8>, AllocError> {
        let mut body = [0; LONGEST_MESSAGE];
        let len = body_of(output, (place as u64).wrapping_add(1), &mut body);
        let msg_type = match output.report.msg_type() {
            OutputType::ExecutionReport => '8',
            OutputType::OrderCancelReject => '9',
            OutputType::Reject => '3',
        };
        from_venue(self.alloc, output.to, msg_type, number, &body[..len])
    }
}

impl Given {
    /// The MsgSeqNum of the next message, where the first is the Logon's.
    fn number(self) -> u64 {
        (self.count as u64).wrapping_add(2)
    }

    /// One output more, of this place.
    fn with(self, place: usize) -> Given {
        Given {
            count: self.count.wrapping_add(1),
            behind: place.wrapping_add(1),
        }
    }
}

/// The OrderID of the order that the output says to be filled, if it says so.
fn filled(output: &Output) -> Option<u64> {
    match &output.report {
        Report::Exec(
            ExecutionReport {
                exec_type: ExecType::Trade { .. },
                order,
            },
        ) => Some(order.id),
        _ => None,
    }
}
