//! The addresses of the hosts that messages go to.

use indexmap::IndexMap;
use listeners::Moments;
use peers_file::{Destination, PeerTable};
use std::alloc::{AllocError, Global};
use std::io;
use std::net::{Net, SocketAddr, ToSocketAddrs};
use std::time::Clock;
use url::Host;

/// After how many milliseconds a host is looked up again that wasn't found, or none of whose
/// addresses answers.
const AGAIN_TIME: u64 = 60_000;

/// For how many milliseconds hosts are looked up, one behind the other, before the next are left
/// for later.
const SLOW_TIME: u64 = 1_000;

/// The hosts of a table, and their addresses. A look-up can't be made beside the rounds, so hosts
/// are looked up as a table is read, and then at most once a minute.
#[derive(Drop)]
pub struct Houses {
    /// By the authorities of their URLs.
    known: IndexMap<String, House>,
    /// The place of the URL in the table at which the next look-ups begin.
    place: usize,
    /// The moment of the next look-ups.
    at: u64,
}

#[derive(Drop)]
struct House {
    addresses: Vec<SocketAddr>,
    /// Which of them is tried next.
    turn: usize,
    /// Whether it is looked up again.
    is_stale: bool,
}

impl Houses {
    /// None is known, and all are looked up at once.
    pub(crate) fn new(alloc: Global) -> Houses {
        Houses {
            known: IndexMap::new(alloc),
            place: 0,
            at: 0,
        }
    }

    /// The address of a destination that is tried next, if its host was found.
    pub fn address(&self, destination: &Destination) -> Option<SocketAddr> {
        let house = self.known.get(destination.authority())?;
        house.addresses.get(house.turn).copied()
    }

    /// The address of a destination failed: the next of its host is tried next, behind the last the
    /// first, and then the host is looked up again.
    pub fn fail(&mut self, destination: &Destination, now: u64) {
        if let Some(house) = self.known.get_mut(destination.authority()) {
            house.turn = house.turn.saturating_add(1);
            if house.turn >= house.addresses.len() {
                house.turn = 0;
                house.is_stale = true;
                self.at = u64::min(self.at, now.saturating_add(AGAIN_TIME));
            }
        }
    }

    /// Whether a host is to be looked up.
    fn is_wanted(&self, destination: &Destination) -> bool {
        match self.known.get(destination.authority()) {
            Some(house) => house.is_stale,
            None => true,
        }
    }

    /// Looks a host up. What was known of it stays where it isn't found.
    fn look_up_one<R: Net>(
        &mut self,
        rt: &R,
        alloc: Global,
        destination: &Destination,
    ) -> Result<(), AllocError> {
        let found = addresses_of(rt, alloc, destination);
        if let Some(house) = self.known.get_mut(destination.authority()) {
            house.is_stale = found.is_err();
            if let Ok(addresses) = found {
                house.addresses = addresses;
                house.turn = 0;
            }
            return Ok(());
        }
        let authority = String::from_str(alloc, destination.authority())?;
        let is_stale = found.is_err();
        let house = House {
            addresses: found.unwrap_or(Vec::new(alloc)),
            turn: 0,
            is_stale,
        };
        self.known.insert(authority, house)?;
        Ok(())
    }

    /// Whether any is to be looked up again.
    fn has_stale(&self) -> bool {
        for (_, house) in self.known.iter() {
            if house.is_stale {
                return true;
            }
        }
        false
    }

    /// Looks up the hosts of a table that are to be, if it is time for that, from where it stopped.
    /// Where that takes long, as where no name server answers, the others wait for a minute.
    pub fn look_up<R: Net + Clock>(
        &mut self,
        rt: &R,
        alloc: Global,
        peers: &PeerTable,
        moments: &Moments,
        now: u64,
    ) -> Result<(), AllocError> {
        if self.at > now {
            return Ok(());
        }
        let until = now.saturating_add(SLOW_TIME);
        for place in self.place..peers.len() {
            if let Some(destination) = peers.url_at(place)
                && self.is_wanted(destination)
            {
                self.look_up_one(rt, alloc, destination)?;
                let ended = moments.now(rt, now);
                if ended > until {
                    self.place = place.saturating_add(1);
                    self.at = ended.saturating_add(AGAIN_TIME);
                    return Ok(());
                }
            }
        }
        self.place = 0;
        self.at = if self.has_stale() {
            now.saturating_add(AGAIN_TIME)
        } else {
            u64::MAX
        };
        Ok(())
    }
}

/// The addresses of a destination.
fn addresses_of<R: Net>(
    rt: &R,
    alloc: Global,
    destination: &Destination,
) -> io::Result<Vec<SocketAddr>> {
    let port = destination.port();
    match destination.host() {
        Some(Host::Domain(name)) => all_of(rt, alloc, (name, port)),
        Some(Host::Ipv4(address)) => all_of(rt, alloc, (address, port)),
        Some(Host::Ipv6(address)) => all_of(rt, alloc, (address, port)),
        None => Ok(Vec::new(alloc)),
    }
}

fn all_of<R: Net, A: ToSocketAddrs>(
    rt: &R,
    alloc: Global,
    addresses: A,
) -> io::Result<Vec<SocketAddr>> {
    let mut all = Vec::new(alloc);
    for address in addresses.to_socket_addrs(rt)? {
        all.push(address)?;
    }
    Ok(all)
}
