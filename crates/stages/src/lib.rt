//! The stages between the gateways, one thread each: a message goes through unmarshaller and journaller, which work
//! side by side, and then through the processor and its book; their outputs go through the marshaller. No call waits.
#![tactic(auto)]

mod crew;
mod journaller;
mod marshaller;
mod processor;
mod stage;
mod turn;
mod unmarshaller;

pub use crew::{Crew, CrewAndGateways, Turns};
pub use journaller::{Journaller, NotMade};
pub use marshaller::Marshaller;
pub use processor::{Processor, ProcessorError, Refused};
pub use stage::Stage;
pub use turn::Turn;
pub use unmarshaller::Unmarshaller;
