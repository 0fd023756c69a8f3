//! Where messages are sent.

ghost use Rattle.std.specs.Prelude.{◌≡◌, IfErr, IfOk, option_copied};
ghost use Rattle.jdf_send.specs.SendCommand.{GoesTo, IsNoPlace, IsPlaceIn, names_peers};

use document_commands::CausedFault;
use jmf_message::decode;
use peers_file::{Destination, NO_PEERS, PeerTable, peers_in_file};
use std::alloc::Global;
use std::rt::Files;
use streams::Fault;

/// Where messages are sent: to a URL, or each to the one that a table has for its receiver.
#[derive(Drop)]
pub(crate) enum SendTo {
    Url(Destination),
    Peers(PeerTable),
}

/// Whether a text names a peers' file: whether it begins with `@`.
fn names_peers(text: &str) -> bool
    ensures { result ≡ names_peers text.now }
{
    text.starts_with('@')
}

/// Why it isn't known where a text says to send to, with what the system says of its peers' file.
pub(crate) fn no_place<R: Files>(rt: &R, alloc: Global, fault: Fault, text: &str) -> CausedFault
    ensures { result.fault ≡ fault }
{
    let path = text.strip_prefix('@').unwrap_or("");
    CausedFault::at_path(rt, alloc, fault, path, NO_PEERS)
}

impl SendTo {
    /// What a text tells: a URL that a message can be sent to, or behind a `@` the path of a peers'
    /// file. Nothing where it is neither. Refuses `LoadFailed` where that file can't be read or has
    /// no such table, and `Memory`.
    pub(crate) fn of<R: Files>(rt: &R, alloc: Global, text: &str) -> Result<Option<SendTo>, Fault>
        // Proved: `send` and `order --send` send to the URL that the text is; or, where that
        // begins with `@`, to the one that the table has for the receiver of the message, if it
        // has one.
        // By `ok`, `err`; `SendTo::destination`.
        ensures ok { IfOk result (IsPlaceIn text.now) }
        ensures err { IfErr result (IsNoPlace text.now) }
    {
        if names_peers(text) {
            let path = text.strip_prefix('@').unwrap_or("");
            return match peers_in_file(rt, alloc, path) {
                Ok(peers) => Ok(Some(SendTo::Peers(peers))),
                Err(refused) => Err(Fault::Device(refused)),
            };
        }
        match Destination::of(alloc, text)? {
            Some(destination) => Ok(Some(SendTo::Url(destination))),
            None => Ok(None),
        }
    }

    /// Where a message is sent. Nothing where the table has no URL for its receiver. Refuses what
    /// `decode` refuses it for, where its receiver is asked for.
    pub(crate) fn destination(
        &self,
        alloc: Global,
        message: &[u8],
    ) -> Result<Option<&Destination>, Fault>
        // Not proved: that `send` and `order --send` connect to that URL: tests show it.
        ensures { IfOk result (λ found. GoesTo self.now message.now (option_copied found)) }
    {
        match self {
            SendTo::Url(destination) => Ok(Some(destination)),
            SendTo::Peers(peers) => {
                let message = decode(alloc, message)?;
                Ok(peers.url_of(message.receiver.as_str()))
            }
        }
    }
}
