use streams::{Fault, Output};

/// What came of a command line.
#[derive(Drop)]
pub enum Outcome {
    /// It wrote this.
    Wrote(Output),
    /// It gave up for this, and wrote nothing.
    GaveUp(Fault),
}
