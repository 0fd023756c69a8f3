/// What is asked for by `list`.
#[derive(Clone, Copy)]
pub struct ListRequest {
    /// Whether only what is open is wanted.
    pub is_open: bool,
    /// Whether it is wanted as JSON.
    pub is_json: bool,
    /// The time to which it is told how long each is out, in seconds since 1970.
    pub now: u64,
}
