//! Small rings behind an empty history, and the symbols of their venue.
ghost use Rattle.std.specs.Prelude.{◌≡◌, ◌≤◌, [], IfOk};
ghost use Rattle.ring_words.specs.Crew.{AreNew};
ghost use Rattle.small_venue.specs.Seats.{ComeBackSpent};

use book::BookLogic;
use ring_words::{OpenError, Rings, Seats};
use std::alloc::Global;
use venue_model::Limits;

/// Rings of so many input rows and output rows for so many gateways.
pub type TestRings<const N: usize, const M: usize, const G: usize> = Rings<BookLogic, N, M, G>;

/// Rings behind an empty history, and the seats at them.
pub fn open<const N: usize, const M: usize, const G: usize>(
    alloc: Global,
    limits: &Limits,
) -> Result<(TestRings<N, M, G>, Seats<BookLogic>), OpenError>
    requires { (1 ≤ G) × (G ≤ 8) }
    ensures opened { IfOk result (λ r. (r.0.logic ≡ limits.now) × (r.0.base ≡ []) × (r.0.base_outputs ≡ 0)) }
    ensures seats { IfOk result (λ r. AreNew G r.0 r.1) }
    ensures spent { IfOk result (λ r. ComeBackSpent r.0 r.1.gateways.items) }
{
    TestRings::open(alloc, BookLogic::of(limits), &Vec::new(alloc), 0)
}

/// The symbol ABC alone; none where memory is refused.
pub fn abc(alloc: Global) -> Option<Limits> {
    let names = [String::from_str(alloc, "ABC").ok()?];
    Limits::new(alloc, &names).ok()
}
