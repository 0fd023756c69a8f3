use crate::serve_limits::ServeLimits;

/// A call over the network.
#[derive(Clone, Copy)]
pub enum NetworkCall<'a> {
    /// A shop as a whole and what happens in it, which come on standard input, its messages sent
    /// over the machine's own network.
    Loop,
    /// An order to the controller that is kept in a file. What that sends goes to one that answers
    /// over the network, and its answer is taken.
    SendOrder {
        /// The path of the file.
        file: &'a str,
        /// The time of the order and of the answer, in seconds since 1970.
        at: u64,
        /// The address of the other controller, as a URL.
        url: &'a str,
    },
    /// The controller that is kept in a file, which answers over the network.
    Serve {
        /// The path of the file.
        file: &'a str,
        /// The address to listen on, as a host and a port.
        listen: &'a str,
        /// What it keeps to while it answers.
        limits: ServeLimits,
        /// How many connections to answer, at least 1. `None`: no end.
        requests: Option<u64>,
        /// The path of the peers' file.
        peers: Option<&'a str>,
        /// The name of the header field that tells who sends.
        sender_field: Option<&'a str>,
    },
    /// A message for a controller that answers over the network.
    Send {
        /// The address of the controller, as a URL.
        url: &'a str,
        /// The path of the message. `None`: it comes on standard input.
        file: Option<&'a str>,
    },
}
