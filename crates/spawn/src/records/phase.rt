/// How far a spawn is.
#[derive(Clone, Copy, PartialEq, Eq)]
pub enum Phase {
    /// Its part is with another controller.
    Out,
    /// Its part came back and is put in.
    Merged,
    /// Its owner took it back before any work was done on its part.
    Withdrawn,
}
