use std::alloc::AllocError;
use std::error::Error;
use std::fmt;
use ticket_items::refusal_row::row;
use ticket_items::{Refusal, RefusalRow};

/// Why a call over bytes, files or connections was refused. Each has a number and a name, which are
/// our own profile's.
#[derive(Clone, Copy, Debug, PartialEq, Eq)]
pub enum Refused {
    /// A core refused it: its number and name are the core's.
    Core(Refusal),
    /// The head of a request or a response isn't one.
    BadHead,
    /// A request is another than `POST`.
    NotPost,
    /// The length of a body isn't told.
    NoLength,
    /// A body is larger than may be.
    TooLarge,
    /// The bytes end before their length.
    CutShort,
    /// A read failed.
    ReadFailed,
    /// A write failed.
    WriteFailed,
    /// A state could not be saved.
    SaveFailed,
    /// The state that is shown may be another than the one that is held.
    Stale,
    /// A state could not be loaded.
    LoadFailed,
    /// A body is coded in a way that isn't read.
    Coding,
    /// No connection was made.
    NoConnection,
    /// The state that is held is of a controller of another name.
    OtherName,
    /// A sender may not send here.
    Forbidden,
}

impl Refused {
    ghost use Rattle.std.specs.Prelude.{◌≡◌};
    ghost use Rattle.streams.specs.Refused as refusals;

    /// Its row: the number, the name and the line.
    pub fn row(self) -> RefusalRow
        ensures number { result.number ≡ refusals.number_of self }
        ensures name { result.name.now ≡ refusals.name_of self }
        ensures line { result.line.now ≡ refusals.refused_line self }
    {
        match self {
            Refused::Core(refusal) => refusal.row(),
            Refused::BadHead => row(50, "BadHead", "Refused 50 BadHead\n"),
            Refused::NotPost => row(51, "NotPost", "Refused 51 NotPost\n"),
            Refused::NoLength => row(52, "NoLength", "Refused 52 NoLength\n"),
            Refused::TooLarge => row(53, "TooLarge", "Refused 53 TooLarge\n"),
            Refused::CutShort => row(54, "CutShort", "Refused 54 CutShort\n"),
            Refused::ReadFailed => row(55, "ReadFailed", "Refused 55 ReadFailed\n"),
            Refused::WriteFailed => row(56, "WriteFailed", "Refused 56 WriteFailed\n"),
            Refused::SaveFailed => row(57, "SaveFailed", "Refused 57 SaveFailed\n"),
            Refused::Stale => row(58, "Stale", "Refused 58 Stale\n"),
            Refused::LoadFailed => row(59, "LoadFailed", "Refused 59 LoadFailed\n"),
            Refused::Coding => row(60, "Coding", "Refused 60 Coding\n"),
            Refused::NoConnection => row(61, "NoConnection", "Refused 61 NoConnection\n"),
            Refused::OtherName => row(62, "OtherName", "Refused 62 OtherName\n"),
            Refused::Forbidden => row(63, "Forbidden", "Refused 63 Forbidden\n"),
        }
    }

    /// Its number.
    pub fn number(self) -> u16
        ensures { result ≡ refusals.number_of self }
    {
        self.row().number
    }

    /// Its name.
    pub fn name(self) -> &'static str
        ensures { result.now ≡ refusals.name_of self }
    {
        self.row().name
    }

    /// The line that tells it: its number and its name. It needs no memory.
    pub fn line(self) -> &'static str
        ensures { result.now ≡ refusals.refused_line self }
    {
        self.row().line
    }
}

impl fmt::Display for Refused {
    ghost use Rattle.std.specs.Prelude.{Some};
    ghost use Rattle.streams.specs.Refused as refusals;

    ghost output = { λ refused. Some (refusals.name_of refused) };

    fn fmt<W: fmt::Write>(&self, f: &mut fmt::Formatter<W>) -> fmt::Result {
        write!(f, "{}", self.name())
    }
}

impl Error for Refused {}

impl From<Refusal> for Refused {
    ghost use Rattle.std.specs.Prelude.{◌≡◌};
    ghost use Rattle.streams.specs.declared.refused.Refused.TheVariants.{Core};

    ghost from_gives = { λ refusal refused. refused ≡ Core refusal };

    fn from(refusal: Refusal) -> Refused {
        Refused::Core(refusal)
    }
}

impl From<AllocError> for Refused {
    ghost use Rattle.std.specs.Prelude.{◌≡◌};
    ghost use Rattle.ticket_items.specs.declared.refusal.Refusal.TheVariants.{Memory};
    ghost use Rattle.streams.specs.declared.refused.Refused.TheVariants.{Core};

    ghost from_gives = { λ _ refused. refused ≡ Core Memory };

    fn from(_error: AllocError) -> Refused {
        Refused::Core(Refusal::Memory)
    }
}
