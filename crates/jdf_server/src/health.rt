/// Whether the folder can be written, as it was found last.
#[derive(Clone, Copy)]
pub(crate) struct Health {
    /// Until which moment that stands, in milliseconds.
    pub until: u64,
    pub is_written: bool,
}

impl Health {
    /// It wasn't looked at yet.
    pub(crate) fn new() -> Health {
        Health {
            until: 0,
            is_written: false,
        }
    }
}
