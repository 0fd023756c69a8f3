use crate::profile::Definition;

/// What a value has to be.
#[derive(Clone, Copy)]
pub(crate) enum Rule {
    /// An id or a name.
    Name,
    /// A name but `Spawned`.
    NodeStatus,
    /// The id of a spawn.
    SpawnId,
    /// A text.
    Text,
    /// A whole number.
    Whole,
    /// Texts under names.
    Attributes,
    /// One of these words.
    Word(&'static [&'static str]),
    /// A whole number within bounds.
    Number(u64, u64),
    /// This truth value.
    Truth(bool),
    /// A text that begins so.
    Begins(&'static str),
    /// One of these fronts, the id of a spawn, and this end.
    OfSpawn(&'static [&'static str], &'static str),
    /// A list of nothing.
    NoItems,
    /// A list of one id of a spawn.
    OneSpawnId,
    /// A list of ids.
    Names,
    /// A list of such objects.
    List(Definition),
    /// Such an object.
    Object(Definition),
}

/// A member of an object: its name, and what its value has to be.
#[derive(Clone, Copy)]
pub(crate) enum Member {
    /// It has to be there.
    Must(&'static str, Rule),
    /// It may be there.
    May(&'static str, Rule),
}

impl Member {
    /// Its name.
    pub(crate) fn name(&self) -> &'static str {
        match self {
            Member::Must(name, _) | Member::May(name, _) => name,
        }
    }

    /// What its value has to be.
    pub(crate) fn rule(&self) -> Rule {
        match self {
            Member::Must(_, rule) | Member::May(_, rule) => *rule,
        }
    }

    /// Whether it has to be there.
    pub(crate) fn is_wanted(&self) -> bool {
        matches!(self, Member::Must(_, _))
    }
}
