//! Where the connections of clients come in, as far as a port needs it: each that is accepted gets a wire, or is let go.
ghost use Rattle.std.specs.Prelude.{◌≡◌, true, false, IfSome, IfNone};
ghost use Rattle.wires.specs.Listeners.{Lobby, Accepts, CameLast, MakesWire, SeesBack, as_it_came};

use crate::client::ClientWire;
use crate::stream::Stream;
use mio::Registry;
use std::alloc::Global;

/// Where one member's clients connect. A listener may keep to itself who did, as one of the machine does.
pub trait Listener {
    /// One end of a connection.
    type Stream: Stream + Drop;

    /// The wire over it.
    type Wire: ClientWire + Drop;

    /// Its number, and the connections that it accepted, as far as it tells them.
    ghost tells: { Self → Lobby };

    /// That one look for a connection that waits, and nothing else, showed none. Code over any listener knows this of
    /// its calls alone.
    ghost looked: { Self → Self → Type 0 };

    /// Its number, as TCP has it.
    fn number(&self) -> u16
        ensures { result ≡ (tells self.now).number };

    /// Lets connections come, and says whether they may now. Before, none comes in.
    fn open(&mut self) -> bool
        ensures { tells self.new ≡ record (tells self.old) { is_open = result } };

    /// Has this thread's rest end where a connection comes in, or its client has sent or taken something, if the
    /// listener can have that.
    fn watch(&mut self, registry: &Registry)
        ensures { tells self.new ≡ tells self.old };

    /// Accepts the connection that waits, if one does. It doesn't wait for one.
    fn accept(&mut self) -> Option<Self::Stream>
        ensures tells { Accepts Self.Stream.gave Self.Stream.took (tells self.old) (tells self.new) result }
        ensures looked { IfNone result (looked self.old self.new) };

    /// The wire over the connection that was accepted last, and over which nothing has moved since. From now on that
    /// never waits. Where the wire can't be made, the connection is closed.
    fn wire(&mut self, alloc: Global, stream: Self::Stream) -> Option<Self::Wire>
        requires one { (tells self.old).out ≡ false }
        requires last { CameLast (tells self.old).came (as_it_came Self.Stream.gave Self.Stream.took stream) }
        ensures fresh { IfSome result (λ wire. Self.Wire.tells wire ≡ as_it_came Self.Stream.gave Self.Stream.took stream) }
        ensures tells { MakesWire (tells self.old) (tells self.new) (as_it_came Self.Stream.gave Self.Stream.took stream) result };

    /// Takes back the wire of a client that has left. Its connection is closed.
    fn take_back(&mut self, wire: Self::Wire)
        requires out { (tells self.old).out ≡ true }
        ensures { SeesBack Self.Wire.tells (tells self.old) (tells self.new) wire };
}
