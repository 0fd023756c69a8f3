ghost use Rattle.std.specs.Prelude.{◌≡◌};
ghost use Rattle.ticket_items.specs.Ids.{mem};

use crate::word::Word;

/// The kind of an id.
#[derive(Clone, Copy)]
pub struct IdKind;

/// The id of a node, a resource or a controller: 1 to 64 characters of `A-Z a-z 0-9 _ . -`, of
/// which the first is a letter or `_` (JDF 1.5, 3.1 asks for an XML ID; the limits are our own).
pub type Id = Word<IdKind>;

/// Whether an id is among these.
pub fn is_among(ids: &[Id], id: &Id) -> bool
    // Proved: An id is told among others.
    ensures { result ≡ mem id.now ids.now }
{
    ids.iter().any(|other| *other == *id)
}
