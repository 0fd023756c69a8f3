use jdf_words::ServeLimits;

/// What `serve` serves, and how.
#[derive(Clone, Copy)]
pub struct Service<'a> {
    /// The path of the file that the controller is kept in, or of a folder of such files.
    pub path: &'a str,
    /// The address to listen on, as a host and a port.
    pub listen: &'a str,
    /// What it keeps to while it serves.
    pub limits: ServeLimits,
    /// How many connections to serve. `None`: no end.
    pub requests: Option<u64>,
    /// The path of the peers' file, where one is named.
    pub peers: Option<&'a str>,
    /// The address at which the page is, as a host and a port, where there is one.
    pub page: Option<&'a str>,
    /// The path of the socket over which orders come, where there is one.
    pub orders: Option<&'a str>,
    /// The name of the header field that tells who sends, where one is named.
    pub sender_field: Option<&'a str>,
    /// The path of the journal, where one is named.
    pub journal: Option<&'a str>,
}
