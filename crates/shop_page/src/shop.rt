/// A shop, as its page tells of it.
#[derive(Clone, Copy)]
pub struct Shop<'a> {
    /// The path of what is served.
    pub path: &'a str,
    /// The time, in seconds since 1970.
    pub now: u64,
    /// How many controllers were read.
    pub controllers: usize,
    /// How many files hold no controller of their name.
    pub unread: usize,
    /// How much work is open no longer.
    pub closed: usize,
}
