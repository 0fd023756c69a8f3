/// What a script makes of a call of a cell (our own).
#[derive(Drop)]
pub enum Deed {
    /// It is answered.
    Answer,
    /// Another's swap comes first, of these bytes in place of what is held; then it is answered.
    Interrupt(Vec<u8>),
    /// What was delayed comes first; then it is answered.
    Land,
    /// A swap is made, and no answer comes.
    Mute,
    /// It comes to nothing, and no answer comes.
    Lose,
    /// A swap is delayed, and no answer comes.
    Delay,
}
