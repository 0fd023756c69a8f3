use ticket_tree::Id;

/// What a command line asks for.
#[derive(Drop)]
pub enum Call {
    /// `order`: these bytes are an order for the controller of a name.
    Order(Id, Vec<u8>),
    /// `take`: the text of the message of a number comes to its receiver. The first that was
    /// written out has the number 1.
    Take(u64),
    /// `show`: of the controller of a name.
    Show(Id),
}

/// A command line.
#[derive(Drop)]
pub struct Line {
    pub call: Call,
    /// When, in seconds since 1970.
    pub at: u64,
}
