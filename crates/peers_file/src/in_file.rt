//! The table in a peers' file.

ghost use Rattle.std.specs.Prelude.{IfErr};
ghost use Rattle.peers_file.specs.PeersInFile.{IsNoTable};

use crate::read::peers_of;
use crate::table::PeerTable;
use std::alloc::Global;
use std::fs;
use std::rt::Files;
use streams::{Counted, Fault, Refused, read_input};
use ticket_items::Refusal;

/// What is told of a file that can be read and is no peers' file.
pub const NO_PEERS: &str = "it is no peers' file";

/// Why there is no table: memory ran out, or else the file can't be loaded.
fn no_table(memory: bool) -> Refused
    ensures { IsNoTable result }
{
    if memory {
        Refused::Core(Refusal::Memory)
    } else {
        Refused::LoadFailed
    }
}

/// The table in a peers' file. Refuses `LoadFailed` where that can't be read or is none, and
/// `Memory`.
pub fn peers_in_file<R: Files>(rt: &R, alloc: Global, path: &str) -> Result<PeerTable, Refused>
    // Proved: A table from a file is read or refused for want of memory, or since the file can't
    // be loaded.
    ensures { IfErr result IsNoTable }
{
    let Ok(file) = fs::open(rt, path) else {
        return Err(no_table(false));
    };
    match read_input(alloc, &mut Counted::new(file)) {
        Ok(bytes) => peers_of(alloc, bytes.as_slice()).map_err(|refusal| no_table(
            refusal == Refusal::Memory,
        )),
        Err(fault) => Err(no_table(fault == Fault::Input(Refused::Core(Refusal::Memory)))),
    }
}
