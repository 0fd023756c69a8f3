use streams::Refused;

/// What is wanted of a message that isn't whole.
#[derive(Clone, Copy)]
pub struct Need {
    /// What the message is refused as, were nothing to follow.
    pub refused: Refused,
    /// How many bytes more are to be read at most, one or more: as many as a head may still have,
    /// and of the body as many as are missing.
    pub room: usize,
    /// Whether the head is there and asks for the interim response before the body is sent.
    pub expects_continue: bool,
}
