//! A venue of small rings for tests: rings of a few rows behind an empty history, the stages and gateways at them, and
//! what clients say there.
#![tactic(auto)]

pub mod crew;
pub mod meeting;
pub mod member;
pub mod messages;
pub mod orders;
pub mod venue;
