use crate::body::Body;
use crate::method::Method;

/// A message that was read.
#[derive(Drop)]
pub struct Received {
    /// The status of a response, and 0 of a request.
    pub status: u16,
    /// The method of a request, one that is taken, and none of a response.
    pub method: Option<Method>,
    /// The bytes of its head, as they came: `lone_field` finds a field in those of a request.
    pub head: Vec<u8>,
    /// The target of a request as it stands in its first line, and nothing of a response.
    pub target: Vec<u8>,
    pub body: Body,
}
