//! What is told of a document.

ghost use Rattle.std.specs.Prelude.{◌≡◌, ◌++◌, [], None, Err, Some, false, string_bytes, true};
ghost use Rattle.std.specs.Prelude.{◌≤◌, IfErr, IfOk, OnOk, length};
ghost use Rattle.std.specs.List.{flat_map};
ghost use Rattle.document_commands.specs.CheckCommand.Verdict as verdicts;

use crate::check_command::kinds::kind_in;
use crate::check_command::readers::read;
use fault_finder::{Kind, Place, places_of};
use json_source::{Scratch, tree_of};
use refusal_rows::named_number;
use std::alloc::{AllocError, Global};
use streams::Output;
use ticket_tree::Refusal;

/// How many places of a refusal are told at most.
const MAX_PLACES: usize = 1_000;

/// The refusals that a document may have, in the order in which they are looked for.
const REFUSALS: [Refusal; 12] = [
    Refusal::NotJson,
    Refusal::NotProfile,
    Refusal::WrongVersion,
    Refusal::WrongMessage,
    Refusal::BadId,
    Refusal::BadText,
    Refusal::ReservedStatus,
    Refusal::DuplicateId,
    Refusal::TooDeep,
    Refusal::UnresolvedLink,
    Refusal::SameName,
    Refusal::BadState,
];

/// The line of a place, with the number and the name of what is refused there.
fn place_line(alloc: Global, named: &str, place: &Place) -> Result<String, AllocError>
    ensures { IfOk result (λ line. string_bytes line ≡ verdicts.line_of named.now place.now) }
{
    let Place { line, column, text } = place;
    format!(in alloc; "{line}:{column}: {text} ({named})\n")
}

/// Appends the lines of places, with the number and the name of what is refused there.
fn push_lines(
    alloc: Global,
    text: &mut Vec<u8>,
    named: &str,
    places: &[Place],
) -> Result<(), AllocError>
    ensures { OnOk result (text.new.items
        ≡ text.old.items ++ flat_map (verdicts.line_of named.now) places.now) }
{
    for place in places {
        let line = place_line(alloc, named, place)?;
        text.extend_from_slice(line.as_bytes())?;
    }
    Ok(())
}

/// Appends the lines of places where something is refused.
fn push_places(
    alloc: Global,
    text: &mut Vec<u8>,
    refusal: &Refusal,
    places: &[Place],
) -> Result<(), AllocError>
    ensures { OnOk result (text.new.items
        ≡ text.old.items ++ flat_map (verdicts.place_line refusal.now) places.now) }
{
    let named = named_number(alloc, refusal.number(), refusal.name())?;
    push_lines(alloc, text, named.as_str(), places)
}

/// The lines of the places where a document is refused, or of the refusal alone where none is
/// found.
fn refused_lines(alloc: Global, refusal: &Refusal, places: &[Place]) -> Result<Vec<u8>, AllocError>
    ensures { IfOk result (λ text. text.items ≡ verdicts.refused_lines refusal.now places.now) }
{
    let mut text = Vec::new(alloc);
    if places.is_empty() {
        text.extend_from_slice(refusal.line().as_bytes())?;
    } else {
        push_places(alloc, &mut text, refusal, places)?;
    }
    Ok(text)
}

/// Appends to the lines of others those of the places where a document is refused for another,
/// where it is one.
fn push_other(
    alloc: Global,
    text: &mut Vec<u8>,
    kind: Kind,
    bytes: &[u8],
    refusal: &Refusal,
    other: &Refusal,
) -> Result<(), AllocError>
    requires { verdicts.AreOthers refusal.now text.old.items }
    ensures { OnOk result (verdicts.AreOthers refusal.now text.new.items) }
{
    if other == refusal {
        return Ok(());
    }
    let places = places_of(alloc, kind, bytes, *other, MAX_PLACES)?;
    push_places(alloc, text, other, places.as_slice())
}

/// The lines of the places where a document is refused for any of these, but this one.
#[tactic(auto, using(crate::proofs::Verdicts::no_others))]
fn other_lines(
    alloc: Global,
    kind: Kind,
    bytes: &[u8],
    refusal: &Refusal,
    among: &[Refusal],
) -> Result<Vec<u8>, AllocError>
    ensures { IfOk result (λ text. verdicts.AreOthers refusal.now text.items) }
{
    let mut text = Vec::new(alloc);
    for other in among {
        push_other(alloc, &mut text, kind, bytes, refusal, other)?;
    }
    Ok(text)
}

/// The lines of the places where a document is refused for anything else, where all is asked for.
#[tactic(auto, using(crate::proofs::Verdicts::no_others))]
fn lines_behind(
    alloc: Global,
    kind: Kind,
    bytes: &[u8],
    refusal: &Refusal,
    all: bool,
) -> Result<Vec<u8>, AllocError>
    ensures others { IfOk result (λ text. verdicts.AreOthers refusal.now text.items) }
    ensures first { all ≡ false → IfOk result (λ text. text.items ≡ []) }
{
    if all {
        other_lines(alloc, kind, bytes, refusal, &REFUSALS)
    } else {
        Ok(Vec::new(alloc))
    }
}

/// All of the places, where all is asked for, or else the first alone.
fn places_asked_for(places: &[Place], all: bool) -> &[Place]
    ensures { all ≡ false → length result.now ≤ 1 }
{
    if all {
        places
    } else {
        &places[..places.len().min(1)]
    }
}

/// The lines of a refused document: of the first place where it is refused; or of all places where
/// it is, and of those of other refusals behind them.
fn lines(
    alloc: Global,
    kind: Kind,
    bytes: &[u8],
    refusal: &Refusal,
    all: bool,
) -> Result<Vec<u8>, AllocError>
    ensures { IfOk result (λ text. verdicts.IsTold all (Err refusal.now) text.items true) }
{
    let limit = if all { MAX_PLACES } else { 1 };
    let places = places_of(alloc, kind, bytes, *refusal, limit)?;
    let mut text = refused_lines(alloc, refusal, places_asked_for(places.as_slice(), all))?;
    let others = lines_behind(alloc, kind, bytes, refusal, all)?;
    text.extend_from_slice(others.as_slice())?;
    Ok(text)
}

/// The kind that the members of bytes tell. Of bytes that are no JSON it is any.
fn kind_of(alloc: Global, bytes: &[u8]) -> Result<Kind, AllocError>
    ensures { IfOk result (verdicts.IsOfKind None bytes.now) }
{
    let mut scratch = Scratch::new(alloc);
    match tree_of(alloc, bytes, &mut scratch) {
        Ok(tree) => Ok(kind_in(&tree)),
        Err(Refusal::NotJson) => Ok(Kind::Ticket),
        Err(_) => Err(AllocError),
    }
}

/// The kind that is said, or that the members of bytes tell.
fn kind_said_or_told(alloc: Global, said: Option<Kind>, bytes: &[u8]) -> Result<Kind, AllocError>
    ensures { IfOk result (verdicts.IsOfKind said bytes.now) }
{
    match said {
        Some(kind) => Ok(kind),
        None => kind_of(alloc, bytes),
    }
}

/// What is told of a document of a kind.
fn verdict_on(alloc: Global, kind: Kind, bytes: &[u8], all: bool) -> Result<Output, AllocError>
    ensures { IfOk result (λ v. verdicts.IsVerdictOn kind all bytes.now v.text.items v.refused) }
{
    match read(alloc, kind, bytes) {
        Ok(()) => Ok(Output {
            text: Vec::from_slice(alloc, b"ok\n")?,
            refused: false,
        }),
        Err(Refusal::Memory) => Err(AllocError),
        Err(refusal) => Ok(Output {
            text: lines(alloc, kind, bytes, &refusal, all)?,
            refused: true,
        }),
    }
}

/// What is told of a document of the kind that is said, or that its members tell: `ok` where the
/// reader of that kind takes it, and else where it is refused for what that reader refuses it for.
/// Refuses for want of memory alone.
pub(crate) fn verdict_of(
    alloc: Global,
    said: Option<Kind>,
    all: bool,
    input: Vec<u8>,
) -> Result<Output, Refusal>
    ensures done { IfOk result (λ o.
        verdicts.IsVerdict said all input.items o.text.items o.refused) }
    ensures refused { IfErr result (verdicts.IsUnchecked input.items) }
{
    let kind = kind_said_or_told(alloc, said, input.as_slice())?;
    Ok(verdict_on(alloc, kind, input.as_slice(), all)?)
}
