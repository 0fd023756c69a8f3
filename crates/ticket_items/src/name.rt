use crate::word::Word;

/// The kind of a name.
#[derive(Clone, Copy)]
pub struct NameKind;

/// A name: a job id, a job part, a Type, a Status, a resource's Name or Class, or what an attribute
/// is called. It has 1 to 64 characters of `A-Z a-z 0-9 _ . -`, of which the first is a letter or
/// `_` (our own profile).
pub type Name = Word<NameKind>;
