use http_message::Methods;

/// The limits of a listener's connections. Times are in milliseconds.
#[derive(Clone, Copy)]
pub struct Limits {
    /// Which methods are taken.
    pub methods: Methods,
    /// How long a request may take to come, from the moment when its connection was accepted.
    pub request: u64,
    /// How long its step may take to be made.
    pub step: u64,
    /// How long the response may take to be written.
    pub write: u64,
    /// How long what still comes is read and thrown away.
    pub linger: u64,
    /// How many bytes are thrown away at most.
    pub spare: usize,
    /// How many bytes a body has at most.
    pub body: u32,
}
