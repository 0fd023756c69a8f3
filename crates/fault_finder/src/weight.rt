//! Which of several objects a value is most like.

use crate::located::{LocatedValue, member_in, rule_in};
use crate::profile::{Definition, objects_of};
use crate::rule::{Member, Rule};
use crate::shapes::fits_alone;

/// What a member weighs that is missing, unknown, or of another kind.
const MEMBER: u64 = 4;

/// What a word weighs by which one object is told from another.
const TELLING_WORD: u64 = 100;

/// Whether the objects of a definition are told by a word or a number. Those of messages are told
/// by their members.
fn is_told_by_word(definition: Definition) -> bool {
    matches!(
        definition,
        Definition::Audit
            | Definition::Edit
            | Definition::MasterOrder
            | Definition::WorkerOrder
            | Definition::EventOrder
            | Definition::Event
            | Definition::Entry
            | Definition::MasterState
            | Definition::WorkerState
    )
}

/// How much is wrong with a value that no member or item is looked at of.
fn weigh_alone(value: &LocatedValue<'_>, rule: Rule, of: Definition) -> u64 {
    if fits_alone(value, rule) {
        return 0;
    }
    match (value, rule) {
        (LocatedValue::Text(_, _), Rule::Word(_))
        | (LocatedValue::Number(_, _), Rule::Number(_, _)) => {
            if is_told_by_word(of) { TELLING_WORD } else { 1 }
        }
        (LocatedValue::Text(_, _), Rule::Name | Rule::NodeStatus | Rule::SpawnId | Rule::Text) => 1,
        (LocatedValue::Text(_, _), Rule::Begins(_) | Rule::OfSpawn(_, _)) => 1,
        (LocatedValue::Truth(_, _), Rule::Truth(_)) => 1,
        (LocatedValue::List(_, _), _) => 1,
        _ => MEMBER,
    }
}

/// How much is wrong with a value. Of a list it is at most 1, so that a long one says no more than
/// a short one.
#[cycle(weigh)]
pub(crate) fn weigh(value: &LocatedValue<'_>, rule: Rule, of: Definition) -> u64 {
    match (value, rule) {
        (LocatedValue::Object(_, members), Rule::Object(definition)) => {
            weigh_lightest(members.as_slice(), definition)
        }
        (LocatedValue::List(_, items), Rule::List(definition)) => {
            weigh_items(items.as_slice(), definition)
        }
        _ => weigh_alone(value, rule, of),
    }
}

/// Whether something is wrong with an item, as a number.
#[cycle(weigh)]
fn weigh_items(items: &[LocatedValue<'_>], definition: Definition) -> u64 {
    for item in items {
        if weigh(item, Rule::Object(definition), definition) > 0 {
            return 1;
        }
    }
    0
}

/// How much is wrong with members by the object of a definition that they are most like.
#[cycle(weigh)]
fn weigh_lightest<'a>(members: &[(&'a str, LocatedValue<'a>)], definition: Definition) -> u64 {
    let mut least = u64::MAX;
    for object in objects_of(definition) {
        least = least.min(weigh_members(members, object, definition));
    }
    least
}

/// How much is wrong with members.
#[cycle(weigh)]
fn weigh_members<'a>(
    members: &[(&'a str, LocatedValue<'a>)],
    object: &[Member],
    of: Definition,
) -> u64 {
    let mut sum: u64 = 0;
    for (name, value) in members {
        let weight = match rule_in(object, name) {
            Some(member) => weigh(value, member.rule(), of),
            None => MEMBER,
        };
        sum = sum.saturating_add(weight);
    }
    sum.saturating_add(weigh_missing(members, object))
}

/// How much is wrong with members for those that are missing.
fn weigh_missing<'a>(members: &[(&'a str, LocatedValue<'a>)], object: &[Member]) -> u64 {
    let mut sum: u64 = 0;
    for member in object {
        if member.is_wanted() && member_in(members, member.name()).is_none() {
            sum = sum.saturating_add(MEMBER);
        }
    }
    sum
}

/// The object of a definition that members are most like.
pub(crate) fn lightest<'a>(
    members: &[(&'a str, LocatedValue<'a>)],
    definition: Definition,
) -> &'static [Member] {
    let objects = objects_of(definition);
    let mut found: &'static [Member] = &[];
    let mut least = u64::MAX;
    for object in objects {
        let weight = if objects.len() == 1 {
            0
        } else {
            weigh_members(members, object, definition)
        };
        if weight < least {
            least = weight;
            found = object;
        }
    }
    found
}
