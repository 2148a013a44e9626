//! The venue's rings behind a history, with all seats at them.
ghost use Rattle.std.specs.Prelude.{◌≡◌, ◌^◌, ◌≤◌, IfOk, length};
ghost use Rattle.book.specs.Histories.{outputs_of};
ghost use Rattle.ring_words.specs.Crew.{AreNew};
ghost use Rattle.venue.specs.Opened.{AreBehind};

use book::BookLogic;
use ring_words::{OpenError, Rings, Seats};
use std::alloc::{AllocError, Global};
use venue_model::{Limits, Past};

/// Rings of 1,024 rows each for so many gateways.
pub type VenueRings<const G: usize> = Rings<BookLogic, 1024, 1024, G>;

/// Both rings have 1,024 rows: it is proved, and nothing is done.
fn have_their_rows<const G: usize>(rings: &VenueRings<G>) {
    let (rows, output_rows) = (rings.rows(), rings.output_rows());
    prove!(rows == 1024 && output_rows == 1024);
}

/// The rings of the venue of these symbols behind a history of so many commands and outputs, with all seats.
pub fn open<const G: usize>(
    alloc: Global,
    limits: &Limits,
    past: Past,
    commands: u64,
    outputs: u64,
) -> Result<(VenueRings<G>, Seats<BookLogic>), AllocError>
    requires gateways { (1 ≤ G) × (G ≤ 8) }
    requires commands { (commands ≡ length past.entries) × (commands ≤ 2 ^ 48) }
    requires outputs { outputs ≡ length (outputs_of limits.now past.entries) }
    ensures rings { IfOk result (λ r. AreBehind limits.now past.entries r.0) }
    ensures seats { IfOk result (λ r. AreNew G r.0 r.1) }
{
    match VenueRings::open_behind(alloc, BookLogic::of(limits), past, commands, outputs) {
        Ok(opened) => {
            have_their_rows(&opened.0);
            Ok(opened)
        }
        Err(OpenError::Memory) => Err(AllocError),
        Err(OpenError::NotPowerOfTwo) => unreachable!(),
    }
}
