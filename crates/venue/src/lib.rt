//! The venue behind its journal: its rings and stages open behind the history that stands there. Then one client is
//! served over a wire, or members at ports of their own, each gateway and each stage on a thread of its own, until it
//! is told to stop.
#![tactic(auto)]

mod cut_off;
mod fault;
mod leaving;
mod listening;
mod member;
mod members;
mod opening;
mod rings;
mod scripted;
mod serving;
mod silence;
mod stop;
mod visitor;
mod watch;

pub use cut_off::listen_cut_off;
pub use fault::ServeFault;
pub use listening::listen;
pub use opening::{Parts, open};
pub use rings::VenueRings;
pub use scripted::ScriptedNames;
pub use serving::serve;
pub use stop::{Look, Names, StopFile, StopSign, SystemNames};
