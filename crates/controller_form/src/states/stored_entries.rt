//! The entries of a worker, as they are built of what is read.

ghost use Rattle.std.specs.Prelude.{◌≡◌, ◌⊎◌, None, Some, map, IfErr, IfOk, OnOk};
ghost use Rattle.std.specs.List.{find};
ghost use Rattle.std.specs.Option.{option_copied};
ghost use Rattle.controller_form.specs.States.EntryForm.{entry_in};
ghost use Rattle.controller_form.specs.States.PartFaults.{is_among};
ghost use Rattle.controller_form.specs.States.WorkerForm as form;

use crate::states::stored_entry::StoredEntry;
use std::alloc::Global;
use ticket_tree::Refusal;
use worker_core::Entry;

/// What may be wrong with a part, in the order in which it is looked for.
const PART_FAULTS: [Refusal; 5] = [
    Refusal::NotATree,
    Refusal::ReservedStatus,
    Refusal::DuplicateId,
    Refusal::TooDeep,
    Refusal::UnresolvedLink,
];

/// Whether a fault is among those that were found.
fn has_found(found: &[Refusal], fault: Refusal) -> bool
    ensures { result ≡ is_among found.now fault }
{
    found.iter().any(|one| one.number() == fault.number())
}

/// The first of some faults that is among those that were found.
fn first_among<'a>(found: &[Refusal], faults: &'a [Refusal]) -> Option<&'a Refusal>
    ensures { option_copied result ≡ find (is_among found.now) faults.now }
{
    faults.iter().find(|fault| has_found(found, **fault))
}

/// The entries. Refuses the first fault of their parts, looked for in all of them before the next
/// one is; and `Memory`, which may come before any.
pub fn build_entries(alloc: Global, stored: Vec<StoredEntry>) -> Result<Vec<Entry>, Refusal>
    ensures ok { IfOk result (λ entries. entries.items ≡ map entry_in stored.items) }
    ensures sound { OnOk result (form.parts_fault stored.items ≡ None) }
    ensures refused { IfErr result (λ e. (e ≡ Refusal.Memory)
        ⊎ (form.parts_fault stored.items ≡ Some e)) }
{
    let mut entries = Vec::with_capacity(alloc, stored.len())?;
    let mut found = Vec::new(alloc);
    for one in stored {
        match one.build(alloc) {
            Ok(entry) => entries.push(entry)?,
            Err(fault) => match fault {
                Refusal::Memory => return Err(fault),
                _ => found.push(fault)?,
            },
        }
    }
    match first_among(&found, &PART_FAULTS) {
        None => Ok(entries),
        Some(fault) => Err(*fault),
    }
}
