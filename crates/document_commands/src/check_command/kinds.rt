//! What a document is said to be, or is by its members.

ghost use Rattle.std.specs.Prelude.{◌≡◌};
ghost use Rattle.std.specs.Option.{option_map};
ghost use Rattle.document_commands.specs.CheckCommand.Kinds as kinds;

use fault_finder::Kind;
use json_source::Source;

/// The kind that a word names.
fn kind_named(word: &str) -> Option<Kind>
    ensures { result ≡ kinds.kind_named word.now }
{
    match word {
        "ticket" => Some(Kind::Ticket),
        "edits" => Some(Kind::Edits),
        "order" => Some(Kind::Order),
        "message" => Some(Kind::Message),
        "script" => Some(Kind::Script),
        "opening" => Some(Kind::Opening),
        "state" => Some(Kind::State),
        _ => None,
    }
}

/// The kind that is said, or none, by a word or none. `None` where the word names no kind.
pub(crate) fn kind_said(word: Option<&str>) -> Option<Option<Kind>>
    ensures { result ≡ kinds.kind_said (option_map (λ w. w.now) word.entry) }
{
    match word {
        None => Some(None),
        Some(word) => Some(Some(kind_named(word)?)),
    }
}

/// Whether an object has a member of a name.
fn has<S: Source>(value: &S, name: &str) -> bool
    ensures { result ≡ kinds.has name.now (S.content value.now) }
{
    value.member(name).is_some()
}

/// The kind that the members of a value tell: a ticket where they tell no other.
pub(crate) fn kind_in<S: Source>(value: &S) -> Kind
    ensures { result ≡ kinds.kind_in (S.content value.now) }
{
    if has(value, "Events") {
        Kind::Script
    } else if has(value, "JMF") {
        Kind::Message
    } else if has(value, "Format") {
        Kind::State
    } else if has(value, "Order") {
        Kind::Order
    } else if has(value, "Master") {
        Kind::Opening
    } else if has(value, "Edits") {
        Kind::Edits
    } else {
        Kind::Ticket
    }
}
