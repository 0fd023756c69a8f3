/// An order whose message is sent on.
#[derive(Clone, Copy)]
pub struct SendOrder<'a> {
    /// The path of the file that the controller is kept in.
    pub file: &'a str,
    /// The time of the order and of the answer, in seconds since 1970.
    pub at: u64,
    /// Where the message is sent: a URL, or behind a `@` the path of a peers' file.
    pub url: &'a str,
}
