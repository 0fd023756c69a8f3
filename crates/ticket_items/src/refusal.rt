use crate::refusal_row::{RefusalRow, row};
use crate::spawn_id::SpawnId;
use std::alloc::{AllocError, AllocFailed};
use std::error::Error;
use std::fmt;

/// Why a call was refused. Each refusal has a number and a name, which are our own profile's.
#[derive(Clone, Copy, Debug, PartialEq, Eq)]
pub enum Refusal {
    /// An id or a name isn't one.
    BadId,
    /// An id stands twice in a ticket (JDF 1.5, 3.1: an ID is unique within its document).
    DuplicateId,
    /// A link names no resource in the pool of its node or of one above it (JDF 1.5, 3.9).
    UnresolvedLink,
    /// A node stands deeper than 32.
    TooDeep,
    /// A node shows the Status `Spawned`, or a resource marks of spawns, which only a spawn gives
    /// (JDF 1.5, 4.4).
    ReservedStatus,
    /// A text has more than 1,024 bytes.
    BadText,
    /// The depths of the rows are those of no tree.
    NotATree,
    /// No node has the id.
    UnknownNode,
    /// No resource has the id.
    UnknownResource,
    /// What is to be changed or spawned is held by this spawn (JDF 1.5, 4.4: the part that was
    /// spawned is changed where it went).
    NotHeld(SpawnId),
    /// The root of a ticket can't be spawned.
    IsRoot,
    /// A resource isn't linked by the spawned node or one below it, or is at home there.
    NotLinked,
    /// No worker has the name.
    UnknownWorker,
    /// No spawn that is out has the id.
    NotOut,
    /// A spawn's number isn't one of 1 to 999,999,999.
    TooManySpawns,
    /// Two controllers are to have one name.
    SameName,
    /// No spawn has the id that a message tells of.
    UnknownSpawn,
    /// A message comes from another controller than the one that it would have to come from.
    WrongSender,
    /// A part that comes back has another shape than what was spawned.
    WrongShape,
    /// A worker has no entry of the spawn.
    UnknownEntry,
    /// A worker's entry was finished.
    NotOpen,
    /// What is to be changed is a copy that may be read alone.
    ReadOnly,
    /// What is to be changed isn't in the part.
    NotInPart,
    /// A worker is to add to the tree, which only the master may.
    NotForWorkers,
    /// A worker's entry isn't finished yet.
    NotDone,
    /// A part can't have come from a ticket.
    BadPart,
    /// What a worker is to give back once more has come back, and the part is given up.
    Acknowledged,
    /// A worker declines the part: its master takes back what the worker hadn't begun.
    Declined,
    /// The bytes are no JSON.
    NotJson,
    /// The JSON isn't of our profile's form.
    NotProfile,
    /// A message says what none may: its Type, ids, places, part, status or codes don't go
    /// together.
    WrongMessage,
    /// A message is of another Version than `1.5`.
    WrongVersion,
    /// What was stored is no state of a controller.
    BadState,
    /// No memory was left.
    Memory,
}

impl Refusal {
    ghost use Rattle.std.specs.Prelude.{◌≡◌};
    ghost use Rattle.ticket_items.specs.Refusal as refusals;

    /// Its row: the number, the name and the line.
    pub fn row(self) -> RefusalRow
        ensures number { result.number ≡ refusals.number_of self }
        ensures name { result.name.now ≡ refusals.name_of self }
        ensures line { result.line.now ≡ refusals.refusal_line self }
    {
        match self {
            Refusal::BadId => row(1, "BadId", "Refused 1 BadId\n"),
            Refusal::DuplicateId => row(2, "DuplicateId", "Refused 2 DuplicateId\n"),
            Refusal::UnresolvedLink => row(3, "UnresolvedLink", "Refused 3 UnresolvedLink\n"),
            Refusal::TooDeep => row(4, "TooDeep", "Refused 4 TooDeep\n"),
            Refusal::ReservedStatus => row(5, "ReservedStatus", "Refused 5 ReservedStatus\n"),
            Refusal::BadText => row(6, "BadText", "Refused 6 BadText\n"),
            Refusal::NotATree => row(7, "NotATree", "Refused 7 NotATree\n"),
            Refusal::UnknownNode => row(10, "UnknownNode", "Refused 10 UnknownNode\n"),
            Refusal::UnknownResource => row(11, "UnknownResource", "Refused 11 UnknownResource\n"),
            Refusal::NotHeld(_) => row(12, "NotHeld", "Refused 12 NotHeld\n"),
            Refusal::IsRoot => row(13, "IsRoot", "Refused 13 IsRoot\n"),
            Refusal::NotLinked => row(14, "NotLinked", "Refused 14 NotLinked\n"),
            Refusal::UnknownWorker => row(15, "UnknownWorker", "Refused 15 UnknownWorker\n"),
            Refusal::NotOut => row(16, "NotOut", "Refused 16 NotOut\n"),
            Refusal::TooManySpawns => row(17, "TooManySpawns", "Refused 17 TooManySpawns\n"),
            Refusal::SameName => row(18, "SameName", "Refused 18 SameName\n"),
            Refusal::UnknownSpawn => row(20, "UnknownSpawn", "Refused 20 UnknownSpawn\n"),
            Refusal::WrongSender => row(21, "WrongSender", "Refused 21 WrongSender\n"),
            Refusal::WrongShape => row(22, "WrongShape", "Refused 22 WrongShape\n"),
            Refusal::UnknownEntry => row(30, "UnknownEntry", "Refused 30 UnknownEntry\n"),
            Refusal::NotOpen => row(31, "NotOpen", "Refused 31 NotOpen\n"),
            Refusal::ReadOnly => row(32, "ReadOnly", "Refused 32 ReadOnly\n"),
            Refusal::NotInPart => row(33, "NotInPart", "Refused 33 NotInPart\n"),
            Refusal::NotForWorkers => row(34, "NotForWorkers", "Refused 34 NotForWorkers\n"),
            Refusal::NotDone => row(35, "NotDone", "Refused 35 NotDone\n"),
            Refusal::BadPart => row(36, "BadPart", "Refused 36 BadPart\n"),
            Refusal::Acknowledged => row(37, "Acknowledged", "Refused 37 Acknowledged\n"),
            Refusal::Declined => row(38, "Declined", "Refused 38 Declined\n"),
            Refusal::NotJson => row(40, "NotJson", "Refused 40 NotJson\n"),
            Refusal::NotProfile => row(41, "NotProfile", "Refused 41 NotProfile\n"),
            Refusal::WrongMessage => row(45, "WrongMessage", "Refused 45 WrongMessage\n"),
            Refusal::WrongVersion => row(46, "WrongVersion", "Refused 46 WrongVersion\n"),
            Refusal::BadState => row(47, "BadState", "Refused 47 BadState\n"),
            Refusal::Memory => row(90, "Memory", "Refused 90 Memory\n"),
        }
    }

    /// The refusal's number.
    pub fn number(self) -> u16
        // Proved: Each refusal has its number, its name and its line, and one of what a spawn holds
        // tells that spawn.
        // By `Refusal::name`, `Refusal::line`, `Refusal::holder`; `Refusal::row`: `number`, `name`,
        // `line`; `refusal_row::row`: `number`, `name`, `line`.
        ensures { result ≡ refusals.number_of self }
    {
        self.row().number
    }

    /// The refusal's name.
    pub fn name(self) -> &'static str
        ensures { result.now ≡ refusals.name_of self }
    {
        self.row().name
    }

    /// The line that tells the refusal: its number and its name. It needs no memory.
    pub fn line(self) -> &'static str
        ensures { result.now ≡ refusals.refusal_line self }
    {
        self.row().line
    }

    /// The spawn that holds what was to be changed or spawned, where that is why.
    pub fn holder(self) -> Option<SpawnId>
        ensures { result ≡ refusals.holder_of self }
    {
        match self {
            Refusal::NotHeld(spawn) => Some(spawn),
            _ => None,
        }
    }
}

impl fmt::Display for Refusal {
    ghost use Rattle.std.specs.Prelude.{Some};
    ghost use Rattle.ticket_items.specs.Refusal as refusals;

    ghost output = { λ refusal. Some (refusals.name_of refusal) };

    fn fmt<W: fmt::Write>(&self, f: &mut fmt::Formatter<W>) -> fmt::Result {
        write!(f, "{}", self.name())
    }
}

impl Error for Refusal {}

impl From<AllocError> for Refusal {
    ghost use Rattle.std.specs.Prelude.{◌≡◌};
    ghost use Rattle.ticket_items.specs.declared.refusal.Refusal.TheVariants.{Memory};

    ghost from_gives = { λ _ e. e ≡ Memory };

    fn from(_error: AllocError) -> Refusal {
        Refusal::Memory
    }
}

impl<T: Drop> From<AllocFailed<T>> for Refusal {
    ghost use Rattle.std.specs.Prelude.{◌≡◌};
    ghost use Rattle.ticket_items.specs.declared.refusal.Refusal.TheVariants.{Memory};

    ghost from_gives = { λ _ e. e ≡ Memory };

    fn from(_error: AllocFailed<T>) -> Refusal {
        Refusal::Memory
    }
}
