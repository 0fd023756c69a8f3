//! Printing the records of a master's spawns, as they are stored.

ghost use Rattle.std.specs.Prelude.{◌≡◌, ◌∷◌, codes, true, OnOk};
ghost use Rattle.std.specs.List.{list_all};
ghost use Rattle.json.specs.Token.{Token as TokenSeen};
ghost use Rattle.serde_json.specs.Data.{array};
ghost use Rattle.json_items.specs.Listed.{data_items};
ghost use Rattle.json_text.specs.Printed.{data_tokens, AreItemsPrinted, IsAppended, IsPrinted};
ghost use Rattle.json_text.specs.Printed.{IsReadAgain};
ghost use Rattle.controller_form.specs.States.RecordForm as form;

use crate::states::phase_word::phase_word;
use json::Writer;
use json_items::Showing;
use json_text::{print_member, print_showing, print_text};
use spawn::SpawnRec;
use std::alloc::{AllocError, Global};

/// Prints a record. Its names and texts are valid.
#[tactic(auto, unfolding(crate::specs::States::RecordForm::spawn_has_names, crate::specs::States::RecordForm::spawn_has_texts))]
fn print_record(alloc: Global, out: &mut Writer, spawn: &SpawnRec) -> Result<(), AllocError>
    ensures printed { OnOk result (IsPrinted (form.record_data spawn.now) out.old out.new) }
    ensures names { OnOk result (form.spawn_has_names spawn.now ≡ true) }
    ensures texts { OnOk result (form.spawn_has_texts spawn.now ≡ true) }
{
    let id = spawn.id.to_id(alloc)?;
    out.begin_object()?;
    print_member(out, "At", &spawn.at)?;
    print_member(out, "ID", &id)?;
    print_member(out, "Node", &spawn.node)?;
    print_text(out, "Phase", phase_word(spawn.phase))?;
    print_showing(out, "RO", spawn.ro.as_slice(), &Showing::nothing(alloc))?;
    print_member(out, "RW", &spawn.rw)?;
    print_member(out, "Worker", &spawn.worker)?;
    out.end_object()
}

/// Prints records one after another. Their names and texts are valid.
fn print_each_record(
    alloc: Global,
    out: &mut Writer,
    records: &[SpawnRec],
) -> Result<(), AllocError>
    ensures printed { OnOk result
        (AreItemsPrinted form.record_data records.now out.old out.new) }
    ensures names { OnOk result (list_all form.spawn_has_names records.now ≡ true) }
    ensures texts { OnOk result (list_all form.spawn_has_texts records.now ≡ true) }
{
    for spawn in records {
        print_record(alloc, out, spawn)?;
    }
    Ok(())
}

/// Prints records as a list under `Spawns`. Their names and texts are valid.
pub fn print_records(
    alloc: Global,
    out: &mut Writer,
    records: &[SpawnRec],
) -> Result<(), AllocError>
    ensures printed { OnOk result (IsAppended
        (TokenSeen.key (codes "Spawns")
        ∷ data_tokens (array (data_items form.record_data records.now)))
        out.old out.new) }
    ensures again { OnOk result
        (IsReadAgain (array (data_items form.record_data records.now))) }
    ensures names { OnOk result (list_all form.spawn_has_names records.now ≡ true) }
    ensures texts { OnOk result (list_all form.spawn_has_texts records.now ≡ true) }
{
    out.key("Spawns")?;
    out.begin_array()?;
    print_each_record(alloc, out, records)?;
    out.end_array()
}
