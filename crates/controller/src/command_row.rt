/// What the profile says of a command (JMF; JDF 1.5, 5): its row in the table of commands.
#[derive(Clone, Copy)]
pub struct CommandRow {
    /// Its Type.
    pub word: &'static str,
    /// What its ID begins with.
    pub mark: &'static str,
    /// The name under which its params stand.
    pub params: &'static str,
    /// Whether a part goes with it.
    pub has_part: bool,
    /// Whether it goes to a worker, and its answer to a master; or the other way round.
    pub is_to_worker: bool,
}
