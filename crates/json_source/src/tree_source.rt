//! Trees as what data is read from.

ghost use Rattle.std.specs.Prelude.{◌≡◌, ◌<◌, HoldsAt, is_some, length, map, option_map, true};
ghost use Rattle.std.specs.Prelude.{IfOk, IfSome};
ghost use Rattle.std.specs.List.{list_any};
ghost use Rattle.std.specs.Str.{bytes_eq};
ghost use Rattle.json.specs.Find.{get_member};
ghost use Rattle.json.specs.Value.{members_view, value_view};
ghost use Rattle.serde_json.specs.Data.{no_members};
ghost use Rattle.ticket_items.specs.Attrs.{IsInOrder};
ghost use Rattle.json_source.specs.Read.{Gives, lent_pairs, text_pairs};
ghost use Rattle.json_source.specs.Tree.{entries_data, listed_data, members_data, names_among};
ghost use Rattle.json_source.specs.Tree.{names_rise, tree_data};

use crate::number::number_in;
use crate::source::Source;
use json::Value as Tree;
use std::alloc::{AllocError, Global};
use std::collections::BTreeMap;
use ticket_items::Refusal;

/// Whether two names are the same. They are short, so they are compared byte by byte.
fn is_same(one: &str, other: &str) -> bool
    ensures { result ≡ bytes_eq one.now other.now }
{
    let (one, other) = (one.as_bytes(), other.as_bytes());
    if one.len() != other.len() {
        return false;
    }
    for at in 0..one.len() {
        if one[at] != other[at] {
            return false;
        }
    }
    true
}

/// The place of a name among these.
fn place_of(name: &str, names: &[&str]) -> Option<usize>
    ensures among { is_some result ≡ list_any (λ other. bytes_eq other.now name.now) names.now }
    ensures place { IfSome result (λ at. (at < length names.now)
        × HoldsAt (λ other. bytes_eq other.now name.now ≡ true) names.now at) }
{
    for (at, other) in names.iter().enumerate() {
        if is_same(other, name) {
            return Some(at);
        }
    }
    None
}

/// The place of a name among these, which is looked for from a place on before it is in front.
fn place_from(name: &str, names: &[&str], start: usize) -> Option<usize>
    ensures among { is_some result ≡ list_any (λ other. bytes_eq other.now name.now) names.now }
    ensures place { IfSome result (λ at. (at < length names.now)
        × HoldsAt (λ other. bytes_eq other.now name.now ≡ true) names.now at) }
{
    let start = start.min(names.len());
    let (front, back) = names.split_at(start);
    match place_of(name, back) {
        Some(behind) => Some(start + behind),
        None => place_of(name, front),
    }
}

/// Whether each member has one of these names. Most members stand in the order of the names, so
/// each is looked for from behind the one before.
fn are_among(members: &[(&str, Tree<'_>)], names: &[&str]) -> bool
    ensures { result ≡ names_among (map (λ n. n.now) names.now) (members_view members.now) }
{
    let mut next = 0;
    for (name, _) in members {
        let Some(at) = place_from(name, names, next) else {
            return false;
        };
        next = at + 1;
    }
    true
}

/// The last member of a name.
fn last_of<'t, 'a>(members: &'t [(&'a str, Tree<'a>)], name: &str) -> Option<&'t Tree<'a>>
    ensures { option_map (λ t. value_view t.now) result
        ≡ get_member name.now (members_view members.now) }
{
    let mut left = members.len();
    while left > 0 {
        left -= 1;
        let (own, member) = &members[left];
        if is_same(own, name) {
            return Some(member);
        }
    }
    None
}

/// Whether the names of members rise, in byte order.
fn names_rise(members: &[(&str, Tree<'_>)]) -> bool
    ensures { result ≡ names_rise (members_view members.now) }
{
    for at in 1..members.len() {
        if !(members[at - 1].0 < members[at].0) {
            return false;
        }
    }
    true
}

/// The texts that all members are, as they stand.
fn texts_listed<'t, 'a>(
    alloc: Global,
    members: &'t [(&'a str, Tree<'a>)],
) -> Result<Vec<(&'t str, &'t str)>, Refusal>
    ensures { Gives (λ pairs. lent_pairs pairs.items) result
        (text_pairs (listed_data (members_view members.now))) }
{
    let mut pairs = Vec::with_capacity(alloc, members.len())?;
    for (name, member) in members {
        let Some(text) = member.as_str() else {
            return Err(Refusal::NotProfile);
        };
        pairs.push((*name, text))?;
    }
    Ok(pairs)
}

/// The members by their names. Of a name that stands twice, the last stays.
fn by_name<'t, 'a>(
    alloc: Global,
    members: &'t [(&'a str, Tree<'a>)],
) -> Result<BTreeMap<&'a str, &'t Tree<'a>>, AllocError>
    ensures { IfOk result (λ found. entries_data found.entries
        ≡ members_data (members_view members.now) no_members) }
{
    let mut found = BTreeMap::new(alloc);
    for (name, member) in members {
        found.insert(*name, member)?;
    }
    Ok(found)
}

/// The texts that all members are.
fn texts_of<'t, 'a>(
    alloc: Global,
    members: &BTreeMap<&'a str, &'t Tree<'a>>,
) -> Result<Vec<(&'t str, &'t str)>, Refusal>
    ensures texts { Gives (λ pairs. lent_pairs pairs.items) result
        (text_pairs (entries_data members.now.entries)) }
    ensures order { IfOk result (λ pairs. IsInOrder (lent_pairs pairs.items)) }
{
    let mut pairs = Vec::with_capacity(alloc, members.len())?;
    for (name, member) in members {
        let Some(text) = member.as_str() else {
            return Err(Refusal::NotProfile);
        };
        pairs.push((*name, text))?;
    }
    Ok(pairs)
}

/// The texts that all members are, in the byte order of their names. Most stand in it already.
fn texts_in_order<'t, 'a>(
    alloc: Global,
    members: &'t [(&'a str, Tree<'a>)],
) -> Result<Vec<(&'t str, &'t str)>, Refusal>
    ensures texts { Gives (λ pairs. lent_pairs pairs.items) result
        (text_pairs (members_data (members_view members.now) no_members)) }
    ensures order { IfOk result (λ pairs. IsInOrder (lent_pairs pairs.items)) }
{
    if names_rise(members) {
        return texts_listed(alloc, members);
    }
    let found = by_name(alloc, members)?;
    texts_of(alloc, &found)
}

impl<'a> Source for Tree<'a> {
    ghost content = { tree_data };

    fn text(&self) -> Option<&str> {
        self.as_str()
    }

    fn truth(&self) -> Option<bool> {
        self.as_bool()
    }

    fn whole_number(&self) -> Option<u64> {
        number_in(self.as_number()?)?.as_u64()
    }

    fn items(&self) -> Option<&[Tree<'a>]> {
        match self {
            Tree::Array(items) => Some(items.as_slice()),
            Tree::Null | Tree::Bool(_) | Tree::Number(_) | Tree::String(_) | Tree::Object(_) =>
                None,
        }
    }

    fn member(&self, name: &str) -> Option<&Tree<'a>> {
        match self {
            Tree::Object(members) => last_of(members.as_slice(), name),
            Tree::Null | Tree::Bool(_) | Tree::Number(_) | Tree::String(_) | Tree::Array(_) => None,
        }
    }

    fn has_only(&self, names: &[&str]) -> bool {
        match self {
            Tree::Object(members) => are_among(members.as_slice(), names),
            Tree::Null | Tree::Bool(_) | Tree::Number(_) | Tree::String(_) | Tree::Array(_) =>
                false,
        }
    }

    fn texts(&self, alloc: Global) -> Result<Vec<(&str, &str)>, Refusal> {
        match self {
            Tree::Object(members) => texts_in_order(alloc, members.as_slice()),
            Tree::Null | Tree::Bool(_) | Tree::Number(_) | Tree::String(_) | Tree::Array(_) => {
                Err(Refusal::NotProfile)
            }
        }
    }
}
