ghost use Rattle.std.specs.Prelude.{◌≡◌, Some};

/// How far what a controller has out has come.
#[derive(Clone, Copy, Debug, PartialEq, Eq)]
pub enum Progress {
    /// It is to be sent.
    Waiting,
    /// An answer came that accepts it.
    Taken,
    /// An answer came that refuses it, with this number. It isn't repeated.
    Refused(u16),
}

impl Progress {
    ghost use Rattle.deliveries.specs.Ledger.{is_waiting};

    /// Whether it is to be sent.
    pub(crate) fn is_waiting(self) -> bool
        ensures { result ≡ is_waiting (Some self) }
    {
        match self {
            Progress::Waiting => true,
            Progress::Taken => false,
            Progress::Refused(_) => false,
        }
    }
}
