//! Values as what data is read from.

ghost use Rattle.std.specs.Prelude.{◌≡◌, map, IfOk};
ghost use Rattle.std.specs.List.{list_any};
ghost use Rattle.std.specs.Str.{bytes_eq};
ghost use Rattle.serde_json.specs.View.{members_view, view};
ghost use Rattle.ticket_items.specs.Attrs.{IsInOrder};
ghost use Rattle.json_source.specs.Read as read;
ghost use Rattle.json_source.specs.Read.{Gives, lent_pairs, text_pairs};

use crate::source::Source;
use serde_json::{Map, Value};
use std::alloc::Global;
use ticket_items::Refusal;

/// Whether a name is one of these.
fn is_among(name: &str, names: &[&str]) -> bool
    ensures { result ≡ list_any (λ other. bytes_eq other.now name.now) names.now }
{
    names.iter().any(|other| *other == name)
}

/// Whether each member has one of these names.
fn are_among(members: &Map<String, Value>, names: &[&str]) -> bool
    ensures { result ≡ read.are_among (map (λ n. n.now) names.now)
        (members_view members.now.entries) }
{
    for (name, _) in members {
        if !is_among(name.as_str(), names) {
            return false;
        }
    }
    true
}

/// The texts that all members are.
fn texts_of(alloc: Global, members: &Map<String, Value>) -> Result<Vec<(&str, &str)>, Refusal>
    ensures texts { Gives (λ pairs. lent_pairs pairs.items) result
        (text_pairs (members_view members.now.entries)) }
    ensures order { IfOk result (λ pairs. IsInOrder (lent_pairs pairs.items)) }
{
    let mut pairs = Vec::with_capacity(alloc, members.len())?;
    for (name, value) in members {
        let Some(text) = value.as_str() else {
            return Err(Refusal::NotProfile);
        };
        pairs.push((name.as_str(), text))?;
    }
    Ok(pairs)
}

impl Source for Value {
    ghost content = { view };

    fn text(&self) -> Option<&str> {
        self.as_str()
    }

    fn truth(&self) -> Option<bool> {
        self.as_bool()
    }

    fn whole_number(&self) -> Option<u64> {
        self.as_u64()
    }

    fn items(&self) -> Option<&[Value]> {
        match self.as_array() {
            Some(items) => Some(items.as_slice()),
            None => None,
        }
    }

    fn member(&self, name: &str) -> Option<&Value> {
        self.get(name)
    }

    fn has_only(&self, names: &[&str]) -> bool {
        match self.as_object() {
            Some(members) => are_among(members, names),
            None => false,
        }
    }

    fn texts(&self, alloc: Global) -> Result<Vec<(&str, &str)>, Refusal> {
        match self.as_object() {
            Some(members) => texts_of(alloc, members),
            None => Err(Refusal::NotProfile),
        }
    }
}
