/// What a request asks for (RFC 9110, 9).
#[derive(Clone, Copy, PartialEq, Eq)]
pub enum Method {
    /// That its body be taken.
    Post,
    /// What its target names.
    Get,
    /// The head alone of what `Get` would be answered with.
    Head,
}
