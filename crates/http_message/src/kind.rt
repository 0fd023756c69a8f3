use crate::methods::Methods;

/// Which of HTTP's two messages is read.
#[derive(Clone, Copy)]
pub enum Kind {
    /// What a client sends, to a listener that takes these methods.
    Request(Methods),
    /// What is answered.
    Response,
}
