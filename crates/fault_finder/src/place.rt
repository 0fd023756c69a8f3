/// A place in a text, and what is wrong there.
#[derive(Drop)]
pub struct Place {
    /// The line, from 1 on.
    pub line: usize,
    /// The column, from 1 on, in bytes.
    pub column: usize,
    /// The members and items that lead there, and what is wrong.
    pub text: String,
}
