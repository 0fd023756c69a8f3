ghost use Rattle.std.specs.Prelude.{◌≡◌, IfErr, IfOk};
ghost use Rattle.peers_file.specs.PeersInFile.{IsNoTable};

use crate::houses::Houses;
use crate::own::Parcel;
use crate::peers_read::changed_at;
use deliveries::Deliveries;
use indexmap::IndexMap;
use mio::net::TcpStream;
use peers::Call;
use peers_file::{Destination, PeerTable, peers_in_file};
use slab::Slab;
use std::alloc::Global;
use std::rt::Files;
use std::time::SystemTime;
use streams::Refused;

/// What goes out from the controllers that are served, by itself.
#[derive(Drop)]
pub struct Post {
    /// The path of the peers' file.
    pub file: String,
    /// The table in it, as it was read last.
    pub peers: PeerTable,
    /// When that file was changed, as it was read last.
    pub read_at: Option<SystemTime>,
    pub deliveries: Deliveries,
    /// The destinations by their URLs, in the order of their numbers.
    pub targets: IndexMap<String, Destination>,
    pub houses: Houses,
    pub calls: Slab<CallInFlight>,
    /// The calls whose streams may have something or take something.
    pub ready: Vec<usize>,
}

impl Post {
    /// What goes out to whom the peers' file of this path names; nothing does yet. Refuses
    /// `LoadFailed` where that can't be read or is none, and `Memory`.
    pub fn of<R: Files>(rt: &R, alloc: Global, file: String) -> Result<Post, Refused>
        // Proved: Post is of the peers' file that was named, and refused where that is no table or
        // memory runs out.
        // By `file`, `refused`.
        ensures file { IfOk result (λ post. post.file ≡ file) }
        ensures refused { IfErr result IsNoTable }
    {
        let read_at = changed_at(rt, file.as_str());
        let peers = peers_in_file(rt, alloc, file.as_str())?;
        Ok(Post {
            file,
            peers,
            read_at,
            deliveries: Deliveries::new(alloc),
            targets: IndexMap::new(alloc),
            houses: Houses::new(alloc),
            calls: Slab::new(alloc),
            ready: Vec::new(alloc),
        })
    }
}

/// A call that carries something to its destination.
#[derive(Drop)]
pub struct CallInFlight {
    pub parcel: Parcel,
    /// The path of the file of the controller from which it goes out.
    pub path: String,
    /// Nothing while it has its turn.
    pub call: Option<Call<TcpStream>>,
}
