//! The rows of the table of refusals.

ghost use Rattle.std.specs.Prelude.{◌≡◌};

/// What is told of a refusal: its row in the table. Its texts are fixed, so that they need no
/// memory.
#[derive(Clone, Copy)]
pub struct RefusalRow {
    /// Its number.
    pub number: u16,
    /// Its name.
    pub name: &'static str,
    /// The line of both.
    pub line: &'static str,
}

/// The row of these.
pub fn row(number: u16, name: &'static str, line: &'static str) -> RefusalRow
    ensures number { result.number ≡ number }
    ensures name { result.name.now ≡ name.now }
    ensures line { result.line.now ≡ line.now }
{
    RefusalRow { number, name, line }
}
