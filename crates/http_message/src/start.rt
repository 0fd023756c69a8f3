use crate::method::Method;

/// What the first line of a head tells.
#[derive(Clone, Copy)]
pub(crate) enum Start {
    /// Its method, if that is taken, and whether it is of a version that wants a `Host`: of
    /// HTTP/1.1.
    Request {
        taken: Option<Method>,
        wants_host: bool,
    },
    Response,
}
