//! Connections to where messages are sent.

use connections::{Until, connect_until};
use peers_file::Destination;
use std::io;
use std::net::Net;
use std::time::{Clock, Duration};
use url::Host;

/// A connection to the host of a destination, for so long at most from now on, of which it may take
/// some until there is one.
pub(crate) fn connect<'a, R: Net + Clock>(
    rt: &'a R,
    destination: &Destination,
    limit: Duration,
) -> io::Result<Until<'a, R, R::Stream>> {
    let port = destination.port();
    match destination.host() {
        Some(Host::Domain(name)) => connect_until(rt, (name, port), limit),
        Some(Host::Ipv4(address)) => connect_until(rt, (address, port), limit),
        Some(Host::Ipv6(address)) => connect_until(rt, (address, port), limit),
        None => Err(io::ErrorKind::InvalidInput.into()),
    }
}
