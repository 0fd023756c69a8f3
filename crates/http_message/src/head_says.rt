use crate::method::Method;
use httparse::spans::Span;
use streams::Refused;

/// What a head tells of the message.
#[derive(Drop)]
pub(crate) struct HeadFacts {
    /// How many bytes the head takes. The body stands behind them.
    pub size: usize,
    /// The status of a response, and 0 of a request.
    pub code: u16,
    /// The method of a request, if it is taken, and none of a response.
    pub method: Option<Method>,
    /// Where the target of a request stands, and nowhere for a response.
    pub target: Span,
    /// How many bytes the body takes, or the first refusal.
    pub says: Result<usize, Refused>,
    /// Whether the interim response is asked for.
    pub expects_continue: bool,
}
