//! The entries of a worker, as they are read.

ghost use Rattle.std.specs.Prelude.{◌≡◌, ◌⊎◌, None, Some, IfErr, IfOk, OnOk};
ghost use Rattle.json_items.specs.Validation.{Reads};
ghost use Rattle.json_source.specs.Read.{Gives};
ghost use Rattle.controller_form.specs.States.EntryForm as form;

use crate::orders::end_named::end_named;
use crate::states::format::{Format, at_under};
use crate::states::stage_word::stage_named;
use json_items::{FormIn, Raw, Validation, check_members, find_two, find_under, text_under};
use json_profile::RawPart;
use json_source::Source;
use std::alloc::Global;
use ticket_tree::{Refusal, SpawnId};
use worker_core::{End, Entry, Stage};

/// An entry of which the ids, names and texts are valid.
#[derive(Drop)]
pub struct StoredEntry {
    /// Its spawn.
    pub spawn: SpawnId,
    pub phase: Stage,
    /// None once it was given up, and where it was declined.
    pub part: Option<RawPart>,
    /// When it was taken, declined or ended, in seconds since 1970.
    pub at: u64,
}

/// The stage under `Phase` in which the worker has the part. Refuses `NotProfile`.
fn stage_under<S: Source>(value: &S) -> Result<Stage, Refusal>
    ensures read { Gives (λ stage. stage) result (form.stage_under (S.content value.now)) }
    ensures refused { IfErr result (λ e. e ≡ Refusal.NotProfile) }
{
    let word = text_under(value, "Phase").ok_or(Refusal::NotProfile)?;
    stage_named(word).ok_or(Refusal::NotProfile)
}

/// The end under `End`. Refuses `NotProfile`.
fn end_under<S: Source>(value: &S) -> Result<End, Refusal>
    ensures read { Gives (λ end. end) result (form.end_under (S.content value.now)) }
    ensures refused { IfErr result (λ e. e ≡ Refusal.NotProfile) }
{
    let word = text_under(value, "End").ok_or(Refusal::NotProfile)?;
    end_named(word).ok_or(Refusal::NotProfile)
}

/// An entry with its part, which tells its spawn.
#[tactic(auto, unfolding(crate::specs::States::EntryForm::held_form), using(crate::proofs::Named::own_named))]
fn told_by_part<S: Source>(alloc: Global, value: &S) -> Result<Validation<StoredEntry>, Refusal>
    ensures { Reads form.entry_has_names form.entry_has_texts result
        (form.held_form Format.First (S.content value.now)) }
{
    check_members(value, &["At", "Part", "Phase"])?;
    let at = at_under(value)?;
    let phase = stage_under(value)?;
    let part = find_under::<RawPart, _>(alloc, value, "Part")?;
    Ok(part.map(|part| StoredEntry {
        spawn: part.spawn(),
        phase,
        part: Some(part),
        at,
    }))
}

/// An entry with its part, and with its spawn's id.
#[tactic(auto, unfolding(crate::specs::States::EntryForm::held_form))]
fn find_held<S: Source>(alloc: Global, value: &S) -> Result<Validation<StoredEntry>, Refusal>
    ensures { Reads form.entry_has_names form.entry_has_texts result
        (form.held_form Format.Second (S.content value.now)) }
{
    check_members(value, &["At", "ID", "Part", "Phase"])?;
    let at = at_under(value)?;
    let phase = stage_under(value)?;
    let found = find_two(alloc, value, "ID", "Part")?;
    Ok(found.map(|(spawn, part)| StoredEntry {
        spawn,
        phase,
        part: Some(part),
        at,
    }))
}

/// The entry of a spawn of which there is no part, in this stage.
#[tactic(auto, unfolding(crate::specs::States::EntryForm::partless_form), using(json_items::proofs::Tests::and_true))]
fn find_partless<S: Source>(
    alloc: Global,
    value: &S,
    phase: Stage,
) -> Result<Validation<StoredEntry>, Refusal>
    ensures { Reads form.entry_has_names form.entry_has_texts result
        (form.partless_form phase (S.content value.now)) }
{
    let at = at_under(value)?;
    let spawn = find_under::<SpawnId, _>(alloc, value, "ID")?;
    Ok(spawn.map(|spawn| StoredEntry {
        spawn,
        phase,
        part: None,
        at,
    }))
}

/// An entry whose part was given up.
#[tactic(auto, unfolding(crate::specs::States::EntryForm::closed_form))]
fn find_closed<S: Source>(alloc: Global, value: &S) -> Result<Validation<StoredEntry>, Refusal>
    ensures { Reads form.entry_has_names form.entry_has_texts result
        (form.closed_form (S.content value.now)) }
{
    check_members(value, &["At", "End", "ID", "Phase"])?;
    let end = end_under(value)?;
    find_partless(alloc, value, Stage::Closed(end))
}

/// An entry of a spawn that was declined.
#[tactic(auto, unfolding(crate::specs::States::EntryForm::declined_form))]
fn find_declined<S: Source>(alloc: Global, value: &S) -> Result<Validation<StoredEntry>, Refusal>
    ensures { Reads form.entry_has_names form.entry_has_texts result
        (form.declined_form (S.content value.now)) }
{
    check_members(value, &["At", "ID", "Phase"])?;
    find_partless(alloc, value, Stage::Declined)
}

impl FormIn<Format> for StoredEntry {
    ghost form_in = { form.entry_form };

    ghost names_valid = { form.entry_has_names };

    ghost texts_valid = { form.entry_has_texts };

    #[tactic(auto, unfolding(crate::specs::States::EntryForm::entry_form))]
    fn find_in<S: Source>(
        alloc: Global,
        value: &S,
        format: &Format,
    ) -> Result<Validation<StoredEntry>, Refusal> {
        match format {
            Format::First => told_by_part(alloc, value),
            Format::Second => match text_under(value, "Phase") {
                Some("Closed") => find_closed(alloc, value),
                Some("Declined") => find_declined(alloc, value),
                _ => find_held(alloc, value),
            },
        }
    }
}

impl StoredEntry {
    /// The entry. Refuses the first of `NotATree`, `ReservedStatus`, `DuplicateId`, `TooDeep` and
    /// `UnresolvedLink` that stands in its part; `Memory` may come before any.
    pub fn build(self, alloc: Global) -> Result<Entry, Refusal>
        ensures ok { IfOk result (λ entry. entry ≡ form.entry_in self) }
        ensures sound { OnOk result (form.entry_fault self ≡ None) }
        ensures err { IfErr result (λ e. (e ≡ Refusal.Memory)
            ⊎ (form.entry_fault self ≡ Some e)) }
    {
        let raw = self.part;
        let part = match raw {
            Some(raw) => Some(raw.build(alloc)?),
            None => None,
        };
        Ok(Entry {
            spawn_id: self.spawn,
            phase: self.phase,
            part,
            at: self.at,
        })
    }
}
