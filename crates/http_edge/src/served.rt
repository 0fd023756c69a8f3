use streams::Refused;

/// A response that was written.
#[derive(Clone, Copy)]
pub struct Served {
    /// The status of the response.
    pub status: u16,
    /// Why the request or its message was refused, if it was: by what HTTP or the message wants, by
    /// the controller, or because its state was not saved.
    pub refusal: Option<Refused>,
}
