//! A member's port: where its clients come in, each with its wire, and where the wires go that aren't used any more. A
//! venue knows no more of a network than this trait: `MemPort` is for tests; a `SocketPort` is over a listener, as `TcpPort` over the machine's.
ghost use Rattle.std.specs.Prelude.{◌≡◌, true, false, IfNone};
ghost use Rattle.wires.specs.Ports.{Register, LetsIn, SeesLeave};

use crate::client::ClientWire;
use mio::Registry;
use std::alloc::Global;

/// Where one member's clients come in, one at a time.
pub trait Port {
    /// A client's wire.
    type Wire: ClientWire + Drop;

    /// Its number, and the wires of its clients as far as it tells them.
    ghost tells: { Self → Register };

    /// That one look for a client that waits, and nothing else, showed none. Code over any port knows this of its calls
    /// alone.
    ghost looked: { Self → Self → Type 0 };

    /// Its number, as TCP has it.
    fn number(&self) -> u16
        ensures { result ≡ (tells self.now).number };

    /// Lets clients come, and says whether they may now. Before, none comes in.
    fn open(&mut self) -> bool
        ensures { tells self.new ≡ record (tells self.old) { is_open = result } };

    /// Has this thread's rest end where a client comes in, or has sent or taken something, if the port can have that:
    /// its sockets are registered there from now on.
    fn watch(&mut self, registry: &Registry)
        ensures { tells self.new ≡ tells self.old };

    /// The wire of the client that waits, if one does. It doesn't wait for one. A client whose wire can't be made is
    /// let go, and one that can't be taken now is tried again by a later call.
    fn accept(&mut self, alloc: Global) -> Option<Self::Wire>
        requires one { (tells self.old).out ≡ false }
        ensures tells { LetsIn Self.Wire.tells (tells self.old) (tells self.new) result }
        ensures looked { IfNone result (looked self.old self.new) };

    /// Whether a client waits, by one look. It doesn't wait for one, and lets none in.
    fn is_wanted(&mut self) -> bool
        ensures tells { tells self.new ≡ tells self.old }
        ensures looked { result ≡ false → looked self.old self.new };

    /// Takes back the wire of a client that has left. Its connection is closed.
    fn take_back(&mut self, wire: Self::Wire)
        requires out { (tells self.old).out ≡ true }
        ensures { SeesLeave (tells self.old) (tells self.new) (Self.Wire.tells wire) };
}
