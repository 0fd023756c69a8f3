use crate::method::Method;
use httparse::spans::Span;

/// Where the parts of a message stand that is whole.
#[derive(Clone, Copy)]
pub struct WholeMessage {
    /// The status of a response, and 0 of a request.
    pub(crate) status: u16,
    /// The method of a request, and none of a response.
    pub(crate) method: Option<Method>,
    /// Where the target of a request stands.
    pub(crate) target: Span,
    /// Where the body begins.
    pub(crate) start: usize,
    /// Where the body ends.
    pub(crate) end: usize,
}
