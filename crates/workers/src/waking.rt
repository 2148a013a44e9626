//! Which workers may have work by what another one did: a bit for each worker of a venue.
ghost use Rattle.std.specs.Prelude.{◌≡◌, ◌<◌};
ghost use Rattle.workers.specs.declared.waking.TheConstants.{PLACES};
ghost use Rattle.workers.specs.Waking.{bit_number, own, wakes};

use crate::gate::Station;

/// How many places there are: four stages, and eight gateways.
pub const PLACES: usize = 12;

/// The bits of the unmarshaller and the journaller, who read what gateways publish.
const READERS: u64 = 0b11;

/// The bit of the processor, which is behind both.
const PROCESSOR: u64 = 0b100;

/// The bit of the marshaller, which is behind the processor.
const MARSHALLER: u64 = 0b1000;

/// The bits of all gateways.
const GATEWAYS: u64 = 0b1111_1111_0000;

/// The place of this worker's bit. Gateways 1 to 8 have one each.
pub fn place(worker: Station) -> usize // promise 12
    ensures place { result ≡ bit_number worker }
    ensures range { result < PLACES }
{
    match worker {
        Station::Unmarshaller => 0,
        Station::Journaller => 1,
        Station::Processor => 2,
        Station::Marshaller => 3,
        Station::Gateway(number) => 4 + (number % 8) as usize,
    }
}

/// This worker's bit.
pub fn own(worker: Station) -> u64
    ensures { result ≡ own worker }
{
    1 << place(worker)
}

/// The bits of those who may have work by what this worker did. Of gateway and readers they are all stages down the
/// line, so that these wake side by side, and not one behind the other. Nobody is woken for room in a ring: who waits
/// for that looks again soon.
pub fn wakes(worker: Station) -> u64 // promise 12
    ensures { result ≡ wakes worker }
{
    match worker {
        Station::Gateway(_) => READERS | PROCESSOR | MARSHALLER,
        Station::Unmarshaller | Station::Journaller => PROCESSOR | MARSHALLER,
        Station::Processor => MARSHALLER,
        Station::Marshaller => GATEWAYS,
    }
}
