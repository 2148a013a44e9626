//! The end of a TCP connection, as the machine has it. It tells no bytes, nor whether it
//! was shut: the standard library says nothing of that.
ghost use Rattle.std.specs.Prelude.{⊤, None};

use crate::stream::Stream;
use std::io;
use std::io::{Read, Write};
use std::net::{Shutdown, TcpStream};

/// It is to be set so that it never waits, as `tcp_wire` does.
impl Stream for TcpStream {
    ghost gave = { λ _. None };

    ghost took = { λ _. None };

    ghost was_shut = { λ _ _. ⊤ };

    fn read(&mut self, buf: &mut [u8]) -> io::Result<usize> {
        Read::read(self, buf)
    }

    fn write(&mut self, bytes: &[u8]) -> io::Result<usize> {
        Write::write(self, bytes)
    }

    fn shut(&mut self) {
        let _ = self.shutdown(Shutdown::Write);
    }
}
