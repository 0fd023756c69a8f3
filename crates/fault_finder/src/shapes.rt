//! The rules of the schema: members, kinds, and what a value is by itself.

use crate::located::{LocatedValue, member_in, rule_in};
use crate::profile::Definition;
use crate::quoted::{QuotedText, quoted_list};
use crate::rule::{Member, Rule};
use crate::walk::{Setting, Walk};
use crate::weight::lightest;
use std::alloc::AllocError;
use ticket_items::{Refusal, SpawnId, is_name, is_text};

/// Whether a text is one of these fronts, the id of a spawn, and an end.
fn is_of_spawn(text: &str, fronts: &[&str], end: &str) -> bool {
    for front in fronts {
        if let Some(rest) = text.strip_prefix(*front) {
            if let Some(spawn) = rest.strip_suffix(end) {
                return SpawnId::parse(spawn).is_ok();
            }
        }
    }
    false
}

/// Whether a text is what a rule wants.
fn text_fits(text: &str, rule: Rule) -> bool {
    match rule {
        Rule::Name => is_name(text),
        Rule::NodeStatus => is_name(text) && text != "Spawned",
        Rule::SpawnId => SpawnId::parse(text).is_ok(),
        Rule::Text => is_text(text),
        Rule::Word(words) => words.iter().any(|word| *word == text),
        Rule::Begins(front) => text.starts_with(front),
        Rule::OfSpawn(fronts, end) => is_of_spawn(text, fronts, end),
        _ => false,
    }
}

/// Whether a list is what a rule wants.
fn items_fit(items: &[LocatedValue<'_>], rule: Rule) -> bool {
    match rule {
        Rule::NoItems => items.is_empty(),
        Rule::Names => items.iter().all(|item| fits_text(item, Rule::Name)),
        Rule::OneSpawnId => {
            items.len() == 1 && items.iter().all(|item| fits_text(item, Rule::SpawnId))
        }
        _ => false,
    }
}

/// Whether a value is a text that a rule wants.
fn fits_text(value: &LocatedValue<'_>, rule: Rule) -> bool {
    match value {
        LocatedValue::Text(_, text) => text_fits(text, rule),
        _ => false,
    }
}

/// Whether members are texts under names.
fn are_attributes<'a>(members: &[(&'a str, LocatedValue<'a>)]) -> bool {
    for (name, value) in members {
        if !is_name(name) || !fits_text(value, Rule::Text) {
            return false;
        }
    }
    true
}

/// Whether a value is what a rule wants, of which no object and no list of objects is.
pub(crate) fn fits_alone(value: &LocatedValue<'_>, rule: Rule) -> bool {
    match (value, rule) {
        (LocatedValue::Text(_, text), _) => text_fits(text, rule),
        (LocatedValue::Number(_, _), Rule::Whole) => value.whole().is_some(),
        (LocatedValue::Number(_, _), Rule::Number(low, high)) => match value.whole() {
            Some(number) => low <= number && number <= high,
            None => false,
        },
        (LocatedValue::Truth(_, truth), Rule::Truth(wanted)) => *truth == wanted,
        (LocatedValue::List(_, items), _) => items_fit(items.as_slice(), rule),
        (LocatedValue::Object(_, members), Rule::Attributes) => are_attributes(members.as_slice()),
        _ => false,
    }
}

/// Whether a rule wants a text.
fn wants_text(rule: Rule) -> bool {
    matches!(
        rule,
        Rule::Name
            | Rule::NodeStatus
            | Rule::SpawnId
            | Rule::Text
            | Rule::Word(_)
            | Rule::Begins(_)
            | Rule::OfSpawn(_, _)
    )
}

/// The kind of value that a rule wants.
fn kind_of(rule: Rule) -> &'static str {
    match rule {
        _ if wants_text(rule) => "a text",
        Rule::Whole | Rule::Number(_, _) => "a whole number",
        Rule::Truth(_) => "true or false",
        Rule::NoItems | Rule::OneSpawnId | Rule::Names | Rule::List(_) => "a list",
        _ => "an object",
    }
}

/// Tells that a value is of another kind than a rule wants.
fn tell_kind(walk: &mut Walk<'_>, value: &LocatedValue<'_>, rule: Rule) -> Result<(), AllocError> {
    if !walk.seeks(Refusal::NotProfile) {
        return Ok(());
    }
    let what = value.what();
    let text = format!(in walk.alloc; "{what} stands where {} belongs", kind_of(rule))?;
    walk.tell(value.at(), text.as_str())
}

/// Tells that a text is none of these words.
fn tell_words(
    walk: &mut Walk<'_>,
    at: usize,
    text: &str,
    words: &[&str],
) -> Result<(), AllocError> {
    let told = QuotedText(text);
    let text = match words {
        [one] => format!(in walk.alloc; "{told} isn't \"{one}\"")?,
        [one, other] => format!(in walk.alloc; "{told} is neither \"{one}\" nor \"{other}\"")?,
        _ => {
            let list = quoted_list(walk.alloc, words)?;
            format!(in walk.alloc; "{told} is none of {list}")?
        }
    };
    walk.tell(at, text.as_str())
}

/// Tells what is wrong with a text, at a byte.
fn tell_text(walk: &mut Walk<'_>, at: usize, text: &str, rule: Rule) -> Result<(), AllocError> {
    let told = QuotedText(text);
    let what = match rule {
        Rule::Word(words) => return tell_words(walk, at, text, words),
        Rule::NodeStatus if text == "Spawned" => {
            format!(in walk.alloc; "a node that is read can't have the Status \"Spawned\"")?
        }
        Rule::Name | Rule::NodeStatus => format!(in walk.alloc;
            "{told} is no id or name: 1 to 64 of A-Z a-z 0-9 _ . -, the first a letter or _"
        )?,
        Rule::SpawnId => format!(in walk.alloc;
            "{told} is no SpawnID: S and a number from 1 to 999999999"
        )?,
        Rule::Text => format!(in walk.alloc;
            "a text of {} bytes, where 1024 are the most",
            text.len()
        )?,
        _ => format!(in walk.alloc; "{told} isn't what belongs there")?,
    };
    walk.tell(at, what.as_str())
}

/// What a text of the right kind is refused for.
fn text_refusal(walk: &Walk<'_>, text: &str, rule: Rule, of: Definition) -> Refusal {
    match rule {
        Rule::Name => Refusal::BadId,
        Rule::NodeStatus if text == "Spawned" => Refusal::ReservedStatus,
        Rule::SpawnId if walk.setting == Setting::Message => Refusal::WrongMessage,
        Rule::NodeStatus | Rule::SpawnId => Refusal::BadId,
        Rule::Text => Refusal::BadText,
        Rule::Word(["1.5"]) => Refusal::WrongVersion,
        _ => value_refusal(walk, of, text == "SpawnedRO" || text == "SpawnedRW"),
    }
}

/// What another value of the right kind is refused for. What a resource shows of spawns is a mark.
fn value_refusal(walk: &Walk<'_>, of: Definition, is_mark: bool) -> Refusal {
    match of {
        Definition::MasterState | Definition::WorkerState => Refusal::BadState,
        Definition::Resource if is_mark && walk.setting != Setting::Part => {
            Refusal::ReservedStatus
        }
        _ if walk.setting == Setting::Message => Refusal::WrongMessage,
        _ => Refusal::NotProfile,
    }
}

/// Tells what is wrong with a value that is an item of no list of objects, and no object.
fn look_alone(
    walk: &mut Walk<'_>,
    value: &LocatedValue<'_>,
    rule: Rule,
    of: Definition,
) -> Result<(), AllocError> {
    match (value, rule) {
        (LocatedValue::Text(at, text), _) if wants_text(rule) => {
            if walk.seeks(text_refusal(walk, text, rule, of)) {
                return tell_text(walk, *at, text, rule);
            }
            Ok(())
        }
        (LocatedValue::Number(_, _), Rule::Number(_, _)) if value.whole().is_some() => {
            tell_value(walk, value, of, "the number isn't one that is known")
        }
        (LocatedValue::Truth(_, true), Rule::Truth(false)) => {
            tell_value(walk, value, of, "true stands where false belongs")
        }
        (LocatedValue::Truth(_, false), Rule::Truth(true)) => {
            tell_value(walk, value, of, "false stands where true belongs")
        }
        _ => tell_kind(walk, value, rule),
    }
}

/// Tells what is wrong with a value of the right kind.
fn tell_value(
    walk: &mut Walk<'_>,
    value: &LocatedValue<'_>,
    of: Definition,
    what: &str,
) -> Result<(), AllocError> {
    if walk.seeks(value_refusal(walk, of, true)) {
        return walk.tell(value.at(), what);
    }
    Ok(())
}

/// Looks at a value.
#[cycle(look)]
pub(crate) fn look<'a>(
    walk: &mut Walk<'a>,
    value: &LocatedValue<'a>,
    rule: Rule,
    of: Definition,
) -> Result<(), AllocError> {
    match (value, rule) {
        (LocatedValue::Object(at, members), Rule::Object(definition)) => {
            look_at_object(walk, *at, members.as_slice(), definition)
        }
        (LocatedValue::Object(_, members), Rule::Attributes) => {
            look_at_attributes(walk, members.as_slice(), of)
        }
        (LocatedValue::List(_, items), Rule::List(definition)) => {
            look_at_items(walk, items.as_slice(), Rule::Object(definition), definition)
        }
        (LocatedValue::List(_, items), Rule::Names) => {
            look_at_items(walk, items.as_slice(), Rule::Name, of)
        }
        (LocatedValue::List(at, items), Rule::NoItems | Rule::OneSpawnId) => {
            look_at_marks(walk, *at, items.as_slice(), rule, of)
        }
        _ => {
            if fits_alone(value, rule) {
                return Ok(());
            }
            look_alone(walk, value, rule, of)
        }
    }
}

/// Looks at the SpawnIDs of a resource.
fn look_at_marks(
    walk: &mut Walk<'_>,
    at: usize,
    items: &[LocatedValue<'_>],
    rule: Rule,
    of: Definition,
) -> Result<(), AllocError> {
    for (index, item) in items.iter().enumerate() {
        if item.text().is_none() {
            walk.enter_item(index)?;
            tell_kind(walk, item, Rule::Text)?;
            walk.leave();
            return Ok(());
        }
    }
    let what = match rule {
        Rule::NoItems => "a list with an item, where no spawn is shown",
        _ => "the list isn't the part's SpawnID alone",
    };
    if items_fit(items, rule) || !walk.seeks(value_refusal(walk, of, true)) {
        return Ok(());
    }
    walk.tell(at, what)
}

/// Looks at items.
#[cycle(look)]
fn look_at_items<'a>(
    walk: &mut Walk<'a>,
    items: &[LocatedValue<'a>],
    rule: Rule,
    of: Definition,
) -> Result<(), AllocError> {
    for (index, item) in items.iter().enumerate() {
        walk.enter_item(index)?;
        look(walk, item, rule, of)?;
        walk.leave();
    }
    Ok(())
}

/// Looks at texts under names.
#[cycle(look)]
fn look_at_attributes<'a>(
    walk: &mut Walk<'a>,
    members: &[(&'a str, LocatedValue<'a>)],
    of: Definition,
) -> Result<(), AllocError> {
    for (name, value) in members {
        walk.enter(*name)?;
        if !is_name(name) && walk.seeks(Refusal::BadId) {
            tell_text(walk, value.at(), name, Rule::Name)?;
        }
        look(walk, value, Rule::Text, of)?;
        walk.leave();
    }
    Ok(())
}

/// What the rules are about in an object of a definition.
fn setting_in(before: Setting, definition: Definition) -> Setting {
    match definition {
        Definition::Part => Setting::Part,
        Definition::SubmissionJmf
        | Definition::ReturnJmf
        | Definition::AbortJmf
        | Definition::ResponseJmf => Setting::Message,
        _ => before,
    }
}

/// Looks at an object that begins at a byte.
#[cycle(look)]
fn look_at_object<'a>(
    walk: &mut Walk<'a>,
    at: usize,
    members: &[(&'a str, LocatedValue<'a>)],
    definition: Definition,
) -> Result<(), AllocError> {
    let before = walk.setting;
    walk.setting = setting_in(before, definition);
    let object = lightest(members, definition);
    tell_missing(walk, at, members, object)?;
    for (name, value) in members {
        walk.enter(*name)?;
        match rule_in(object, name) {
            Some(member) => look(walk, value, member.rule(), definition)?,
            None => tell_unknown(walk, value, object)?,
        }
        walk.leave();
    }
    walk.setting = before;
    Ok(())
}

/// Tells which members are missing in an object that begins at a byte.
fn tell_missing<'a>(
    walk: &mut Walk<'_>,
    at: usize,
    members: &[(&'a str, LocatedValue<'a>)],
    object: &[Member],
) -> Result<(), AllocError> {
    for member in object {
        let name = member.name();
        if walk.seeks(Refusal::NotProfile)
            && member.is_wanted()
            && member_in(members, name).is_none()
        {
            let what = format!(in walk.alloc; "the member {name} is missing")?;
            walk.tell(at, what.as_str())?;
        }
    }
    Ok(())
}

/// Tells that a value stands under a name that isn't known.
fn tell_unknown(
    walk: &mut Walk<'_>,
    value: &LocatedValue<'_>,
    object: &[Member],
) -> Result<(), AllocError> {
    if !walk.seeks(Refusal::NotProfile) {
        return Ok(());
    }
    let mut what = String::from_str(walk.alloc, "no such member is known here; these are:")?;
    for member in object {
        what.push_str(" ")?;
        what.push_str(member.name())?;
    }
    walk.tell(value.at(), what.as_str())
}
