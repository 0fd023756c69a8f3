use http_edge::Served;
use rounds::Receipt;

/// What is told of a client's request in its line of the log.
#[derive(Drop)]
pub struct Note {
    /// The path of the file of the controller that it is for; nothing where it is for none.
    pub path: Option<String>,
    /// The status of its response, and the refusal that was met.
    pub told: Served,
    /// What its message was taken as and from whom, if it was taken.
    pub taken: Option<Receipt>,
}
