//! Replay: the book and all outputs out of a journal, and a report of them in text. It stands on what the journaller
//! has kept, and reads it as the processor did. The program `venue-replay` is `report_file` and what stands beside it, and
//! over a disk `report`.
#![tactic(auto)]

mod adding;
mod answer;
mod carrying;
mod checking;
mod doing;
mod fault;
mod job;
mod laws;
mod lines;
mod newest;
mod recovered;
mod replayed;
mod reporting;
mod running;
mod start_up;
mod steps;
mod taker;
mod taking_up;

pub use adding::snapshot_file;
pub use answer::{Answer, tell};
pub use carrying::carry_file;
pub use checking::{check, check_file};
pub use doing::report;
pub use fault::{ReplayFault, refuse};
pub use job::{Job, Subject, Task};
pub use laws::{true_snapshots_recover_the_whole, true_snapshots_stay_true};
pub use lines::write_output_line;
pub use recovered::{Recovered, replay};
pub use replayed::{Replayed, replay_whole};
pub use running::report_file;
pub use start_up::{ENTRIES_TO_SNAPSHOT, start};
pub use taking_up::{StartFault, TakenUp};
