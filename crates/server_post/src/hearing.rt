//! What comes from other houses tells that they are there.

use crate::post::Post;
use mio::net::TcpStream;
use rounds::AnsweredClient;
use std::alloc::{AllocError, Global};
use ticket_items::Id;

impl Post {
    /// The number of the destination of a name, if anything was ever out to it.
    fn known_line(&self, alloc: Global, name: &Id) -> Result<Option<usize>, AllocError> {
        let Some(found) = self.peers.url_of(name.as_str()) else {
            return Ok(None);
        };
        let url = format!(in alloc; "{}{}", found.authority(), found.path())?;
        Ok(self.targets.get_index_of(url.as_str()))
    }

    /// A message from this name was taken, so its house is there, and what waits for that goes at
    /// once. Without memory it goes at its own moment.
    fn hear(&mut self, alloc: Global, name: &Id, now: u64) {
        if let Ok(Some(line)) = self.known_line(alloc, name) {
            self.deliveries.hear_from(line, now);
        }
    }
}

/// Of each message that was taken its house is heard from.
pub fn hear_all(
    post: &mut Option<Post>,
    alloc: Global,
    answered: &[AnsweredClient<TcpStream>],
    now: u64,
) {
    let Some(post) = post else {
        return;
    };
    for one in answered {
        if let Some(taken) = &one.taken {
            post.hear(alloc, &taken.sender, now);
        }
    }
}
