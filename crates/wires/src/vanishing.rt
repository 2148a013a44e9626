//! A client whose machine has vanished without a word, as one whose power or cable is gone: the system asks a silent
//! client whether it is still there, and ends the connection of one that doesn't answer.

use libc::net as c;
use std::io;
use std::io::ErrorKind;
use std::net::TcpStream;
use std::os::fd::{AsRawFd, RawFd};

/// A client that is silent is asked behind so many seconds.
const FIRST_ASKED: i32 = 30;

/// It is asked again each so many seconds.
const ASKED_AGAIN: i32 = 10;

/// It has vanished where it hasn't answered for so many milliseconds, a minute. So has one that takes no byte of those
/// sent to it for as long, whether its machine still answers or not.
const UNHEARD: i32 = 60_000;

/// The value of an option, as the system takes it.
fn value_of(number: i32) -> [u8; 16] {
    let mut value = [0; 16];
    value[..4].copy_from_slice(&number.to_ne_bytes());
    value
}

/// What the system's answer to such a call means.
fn outcome(answer: i32) -> io::Result<()> {
    if answer == 0 {
        return Ok(());
    }
    Err(io::Error::from(ErrorKind::Other))
}

/// Lets the system ask whether the client is there.
fn ask(fd: RawFd) -> io::Result<()> {
    let (socket, tcp) = (c::SOL_SOCKET, c::IPPROTO_TCP);
    let (on, first, again) = (value_of(1), value_of(FIRST_ASKED), value_of(ASKED_AGAIN));
    unsafe {
        outcome(c::setsockopt(fd, tcp, c::TCP_KEEPIDLE, &first, 4))?;
        outcome(c::setsockopt(fd, tcp, c::TCP_KEEPINTVL, &again, 4))?;
        outcome(c::setsockopt(fd, socket, c::SO_KEEPALIVE, &on, 4))
    }
}

/// Lets the system end the connection of a client that has vanished.
pub(crate) fn end_if_it_vanishes(stream: &TcpStream) -> io::Result<()> {
    let fd = stream.as_raw_fd();
    ask(fd)?;
    let unheard = value_of(UNHEARD);
    unsafe { outcome(c::setsockopt(fd, c::IPPROTO_TCP, c::TCP_USER_TIMEOUT, &unheard, 4)) }
}
