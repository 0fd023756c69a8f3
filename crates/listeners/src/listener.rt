ghost use Rattle.std.specs.Prelude.{◌≡◌};
ghost use Rattle.http_message.specs.declared.methods.Methods.{Methods};

use crate::wire::Wire;
use mio::Registry;
use peers::Limits;
use std::io;

/// Where others come to the server, and what they may ask there (our own): one listener takes
/// messages, at one the shop is looked at, and one takes orders.
pub trait Listener: Drop {
    /// The methods by which something may be asked.
    ghost methods: { Methods };

    /// The limits of each connection.
    fn limits(&self) -> Limits
        // Proved: What may be asked at each place where others come: messages by POST alone,
        // looking by GET or HEAD, orders by POST, and looking there by GET.
        ensures { result.methods ≡ methods };

    /// Has it told under this token that somebody waits.
    fn register(&mut self, registry: &Registry, token: usize) -> io::Result<()>;
}

/// A listener beside the one of messages.
pub trait GuestListener: Listener {
    /// The stream of one who comes.
    type Stream: Wire;

    /// The stream of one who waits.
    fn accept(&self) -> io::Result<Self::Stream>;
}
