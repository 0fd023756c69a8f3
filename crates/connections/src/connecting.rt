//! Making connections.

use crate::until::{Until, time_left};
use std::io;
use std::net::{Net, TcpStream, ToSocketAddrs};
use std::time::{Clock, Duration, Instant};

/// A connection over the first of these addresses that answers, for so long at most from now on, of
/// which it may take some until there is one. How long it takes to look up a name isn't limited.
pub fn connect_until<'a, R: Net + Clock, A: ToSocketAddrs>(
    rt: &'a R,
    addresses: A,
    limit: Duration,
) -> io::Result<Until<'a, R, R::Stream>> {
    let start = Instant::now(rt)?;
    let stream = connect_within(rt, addresses, start, limit)?;
    Ok(Until::new(rt, stream, start, limit))
}

/// A connection over the first of these addresses that answers, within what is left of a limit from
/// a start on.
fn connect_within<R: Net + Clock, A: ToSocketAddrs>(
    rt: &R,
    addresses: A,
    start: Instant,
    limit: Duration,
) -> io::Result<R::Stream> {
    let mut last = io::Error::from(io::ErrorKind::NotFound);
    for address in addresses.to_socket_addrs(rt)? {
        let left = time_left(rt, start, limit)?;
        match TcpStream::connect_timeout(rt, &address, left) {
            Ok(stream) => return Ok(stream),
            Err(error) => last = error,
        }
    }
    Err(last)
}
