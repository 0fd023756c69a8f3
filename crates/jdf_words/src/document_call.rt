/// A call of a document, which comes as input.
#[derive(Clone, Copy)]
pub enum DocumentCall<'a> {
    /// Edits of one ticket.
    Edit,
    /// A shop as a whole and what happens in it.
    World,
    /// A look for what is wrong with a document.
    Check {
        /// What the document is, in a word. `None`: its members tell.
        kind: Option<&'a str>,
        /// Whether all that is wrong is to be told.
        all: bool,
    },
    /// A look at what a refusal means, for which nothing is read.
    Explain {
        /// The refusal's number.
        number: &'a str,
    },
}
