//! The records of a master's spawns, as they are read.

ghost use Rattle.std.specs.Prelude.{◌≡◌, IfErr};
ghost use Rattle.json_source.specs.Read.{Gives};
ghost use Rattle.controller_form.specs.States.RecordForm as form;

use crate::states::format::{Format, at_under};
use crate::states::phase_word::phase_named;
use json_items::{FormIn, Validation, check_members, find_four, text_under, zip};
use json_profile::FoundPool;
use json_source::Source;
use spawn::{Phase, SpawnRec};
use std::alloc::Global;
use ticket_tree::Refusal;

/// The members of a record.
const RECORD_MEMBERS: &[&str] = &["At", "ID", "Node", "Phase", "RO", "RW", "Worker"];

/// The record of a spawn (JDF 1.5, 4.4), and whether its copies to read show nothing of spawns.
#[derive(Drop)]
pub struct StoredRecord {
    pub spawn: SpawnRec,
    pub bare: bool,
}

/// Whether a format can tell a phase.
fn can_store_phase(format: Format, phase: Phase) -> bool
    ensures { result ≡ form.can_store_phase format phase }
{
    match (format, phase) {
        (Format::First, Phase::Withdrawn) => false,
        _ => true,
    }
}

/// The phase under `Phase`, which the format has to tell. Refuses `NotProfile`.
fn phase_under<S: Source>(value: &S, format: Format) -> Result<Phase, Refusal>
    ensures read { Gives (λ phase. phase) result
        (form.phase_under format (S.content value.now)) }
    ensures refused { IfErr result (λ e. e ≡ Refusal.NotProfile) }
{
    let word = text_under(value, "Phase").ok_or(Refusal::NotProfile)?;
    let phase = phase_named(word).ok_or(Refusal::NotProfile)?;
    if can_store_phase(format, phase) {
        Ok(phase)
    } else {
        Err(Refusal::NotProfile)
    }
}

impl FormIn<Format> for StoredRecord {
    ghost form_in = { form.record_form };

    ghost names_valid = { form.record_has_names };

    ghost texts_valid = { form.record_has_texts };

    #[tactic(auto, unfolding(crate::specs::States::RecordForm::record_form))]
    fn find_in<S: Source>(
        alloc: Global,
        value: &S,
        format: &Format,
    ) -> Result<Validation<StoredRecord>, Refusal> {
        check_members(value, RECORD_MEMBERS)?;
        let at = at_under(value)?;
        let phase = phase_under(value, *format)?;
        let names = find_four(alloc, value, "ID", "Node", "Worker", "RW")?;
        let pool = FoundPool::find_under(alloc, value, "RO")?;
        let bare = pool.is_bare();
        let found = zip(names, pool.resources);
        Ok(found.map(|((((id, node), worker), rw), ro)| {
            let spawn = SpawnRec {
                id,
                node,
                worker,
                at,
                rw,
                ro,
                phase,
            };
            StoredRecord { spawn, bare }
        }))
    }
}
