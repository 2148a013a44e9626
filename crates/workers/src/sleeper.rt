//! The thread of one worker, as it rests between turns: others wake it, and it wakes others.
use crate::gate::Station;
use crate::parking::Parking;
use crate::rest::{Machine, Pauses};
use crate::signals::Signalling;
use mio::Waker;
use std::rt::Clock;
use std::time::Duration;

/// The thread of one worker. No clause says what it does when it is asked.
#[derive(Drop)]
pub struct Sleeper<'a, C: Clock, S: Signalling> {
    machine: Machine<'a, C>,
    signals: &'a S,
    station: Station,
    parking: Option<Parking>,
}

impl<'a, C: Clock, S: Signalling> Sleeper<'a, C, S> {
    /// The thread of this worker, which has begun. Where it has no place to rest, it sleeps for short in its stead.
    pub fn of(
        clock: &'a C,
        signals: &'a S,
        station: Station,
        parking: Option<(Parking, Waker)>,
    ) -> Sleeper<'a, C, S> {
        let (parking, waker) = match parking {
            Some((parking, waker)) => (Some(parking), Some(waker)),
            None => (None, None),
        };
        name_thread(station);
        signals.begin(station, waker);
        Sleeper {
            machine: Machine::new(clock),
            signals,
            station,
            parking,
        }
    }
}

/// Gives the thread that calls the name of its worker, for who looks at the threads of a process: `gateway1` to
/// `gateway8`, or that of its stage. Where the system refuses it, the thread keeps the name that it has.
fn name_thread(worker: Station) {
    let mut gateway = *b"gateway0";
    let name: &[u8] = match worker {
        Station::Unmarshaller => b"unmarshaller",
        Station::Journaller => b"journaller",
        Station::Processor => b"processor",
        Station::Marshaller => b"marshaller",
        Station::Gateway(number) => {
            gateway[7] = b'0' + (number % 10) as u8;
            &gateway
        }
    };
    let _ = os::set_thread_name(name);
}

impl<C: Clock, S: Signalling> Pauses for Sleeper<'_, C, S> {
    ghost paused = { λ pause x y. Unit {0} };

    ghost parked = { λ millis woken x y. Unit {0} };

    ghost snoozed = { λ time x y. Unit {0} };

    ghost timed = { λ time x y. Unit {0} };

    ghost asked_until = { λ until x y. Unit {0} };

    ghost turned_shy = { λ until x y. Unit {0} };

    fn wake(&mut self) {
        self.machine.wake();
    }

    fn rouse(&mut self) {
        self.signals.rouse(self.station);
        self.machine.wake();
    }

    fn time(&mut self) -> u64 {
        self.machine.time()
    }

    fn shy_until(&mut self) -> u64 {
        self.signals.shy_until()
    }

    fn turn_shy(&mut self, until: u64) {
        self.signals.turn_shy(until);
    }

    fn spin(&mut self) {
        self.machine.spin();
    }

    fn snooze(&mut self) -> u64 {
        self.machine.snooze()
    }

    fn nap(&mut self, micros: u64) {
        self.machine.nap(micros);
    }

    fn doze(&mut self) {
        self.signals.announce(self.station);
    }

    fn park(&mut self, millis: u64) -> bool {
        self.machine.wake();
        let Some(parking) = &mut self.parking else {
            return self.machine.park(millis);
        };
        match parking.rest(Duration::from_millis(millis)) {
            Ok(is_woken) => is_woken,
            Err(_) => self.machine.park(millis),
        }
    }
}
