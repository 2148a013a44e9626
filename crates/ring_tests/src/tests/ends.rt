//! The numbers of refused claims, of a processor that can't be made, and of the reasons for which a session ends.
use gateway::Reason;
use sequencer::ClaimRefusal;
use stages::ProcessorError;

#[test]
fn numbers_of_refusals(rt: HostRuntime) {
    assert_eq!(rt; ClaimRefusal::Full.number(), 31);
    assert_eq!(rt; ClaimRefusal::Contended.number(), 32);
    assert_eq!(rt; ClaimRefusal::Exhausted.number(), 33);
    assert_eq!(rt; ProcessorError::Memory.number(), 12);
}

#[test]
fn numbers_of_ends(rt: HostRuntime) {
    assert_eq!(rt; Reason::Closed.number(), 51);
    assert_eq!(rt; Reason::WireFailed.number(), 52);
    assert_eq!(rt; Reason::LoggedOut.number(), 53);
    assert_eq!(rt; Reason::Refused.number(), 54);
    assert_eq!(rt; Reason::Stalled.number(), 55);
    assert_eq!(rt; Reason::Exhausted.number(), 56);
}
