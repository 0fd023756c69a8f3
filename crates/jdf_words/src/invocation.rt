use crate::call::Call;

/// What the words of the command line stand for: a call, where its input comes from, where what it
/// does is written down, and where what it serves is seen.
#[derive(Clone, Copy)]
pub struct Invocation<'a> {
    /// The call.
    pub call: Call<'a>,
    /// The path of the file that the input comes from, in place of standard input.
    pub from: Option<&'a str>,
    /// The path of the journal.
    pub journal: Option<&'a str>,
    /// The address at which the page is.
    pub page: Option<&'a str>,
    /// The path of the socket over which orders come.
    pub orders: Option<&'a str>,
}
