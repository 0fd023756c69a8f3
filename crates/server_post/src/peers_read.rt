//! The peers' file, as it changes beside the server.

use crate::houses::Houses;
use crate::post::Post;
use peers_file::peers_in_file;
use std::alloc::Global;
use std::fs;
use std::rt::Files;
use std::time::SystemTime;

/// When a file was changed, where the system tells it.
pub fn changed_at<R: Files>(rt: &R, path: &str) -> Option<SystemTime> {
    let there = fs::metadata(rt, path).ok()?;
    there.modified().ok()
}

/// What came of a look at the peers' file.
#[derive(Clone, Copy)]
pub enum PeersRead {
    /// It is as it was.
    Same,
    /// It was changed, and read.
    Changed,
    /// It is wrong.
    Wrong,
}

impl Post {
    /// Reads the peers' file, if it was changed. Where it is wrong the table stays as it was.
    pub fn read_peers<R: Files>(&mut self, rt: &R, alloc: Global) -> PeersRead {
        let changed = changed_at(rt, self.file.as_str());
        if changed.is_none() || changed == self.read_at {
            return PeersRead::Same;
        }
        self.read_at = changed;
        match peers_in_file(rt, alloc, self.file.as_str()) {
            Ok(peers) => {
                self.peers = peers;
                self.houses = Houses::new(alloc);
                PeersRead::Changed
            }
            Err(_) => PeersRead::Wrong,
        }
    }
}
