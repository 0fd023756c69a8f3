//! A master's state from JSON, and as JSON.

ghost use Rattle.std.specs.Prelude.{◌≡◌, ◌⊎◌, false, map, true, IfErr, IfOk, OnOk};
ghost use Rattle.json_text.specs.Printed.{IsPrinted};
ghost use Rattle.controller_form.specs.States.MasterForm as form;
ghost use Rattle.controller_form.specs.States.Writable.{IsWritableMaster};

use crate::states::format::{WRITTEN, controller_under, format_of};
use crate::states::record_text::print_records;
use crate::states::state_form::StateForm;
use crate::states::stored_record::StoredRecord;
use json::Writer;
use json_items::{Raw, check_members, find_list_in, find_three, zip};
use json_profile::{RawTicket, print_ticket};
use json_source::Source;
use json_text::{print_items, print_member};
use master_core::Master;
use spawn::SpawnRec;
use std::alloc::{AllocError, Global};
use ticket_tree::{Items, Refusal};

/// Prints a master's own members. Its ids, names and texts are valid.
fn print_master(alloc: Global, out: &mut Writer, master: &Master) -> Result<(), AllocError>
    ensures printed { OnOk result (IsPrinted (form.master_data master.now) out.old out.new) }
    ensures known { OnOk result (IsWritableMaster master.now) }
{
    out.begin_object()?;
    print_member(out, "Name", master.name())?;
    print_records(alloc, out, master.records())?;
    out.key("Ticket")?;
    print_ticket(alloc, out, master.ticket())?;
    print_items(out, "Workers", master.workers())?;
    out.end_object()
}

/// Whether the copies to read of all records show nothing of spawns.
fn are_bare(records: &[StoredRecord]) -> bool
    ensures { result ≡ form.records_are_bare records.now }
{
    records.iter().all(|record| record.bare)
}

/// The records alone. Refuses `ReservedStatus` where a copy to read of one shows a spawn, and else
/// `Memory`.
fn spawns_of(alloc: Global, records: Items<StoredRecord>) -> Result<Vec<SpawnRec>, Refusal>
    ensures ok { IfOk result (λ spawns. spawns.items ≡ map (λ r. r.spawn) records) }
    ensures bare { OnOk result (form.records_are_bare records ≡ true) }
    ensures refused { IfErr result (λ e. (e ≡ Refusal.Memory)
        ⊎ ((e ≡ Refusal.ReservedStatus) × (form.records_are_bare records ≡ false))) }
{
    if !are_bare(records.as_slice()) {
        return Err(Refusal::ReservedStatus);
    }
    let records = records.into_vec().into_iter();
    Ok(records.map(|record| record.spawn).collect(alloc)?)
}

impl StateForm for Master {
    ghost use Rattle.controller_form.specs.States.MasterForm as form;
    ghost use Rattle.controller_form.specs.States.RecordForm.{can_store_phases};
    ghost use Rattle.controller_form.specs.declared.states.format.Format.TheVariants.{First};

    ghost state_data = { form.master_state_data };

    ghost first_data = { form.master_state_in First };

    ghost has_first = { λ m. can_store_phases First m.records };

    ghost state_read = { form.master_state_read };

    fn print_state(&self, alloc: Global, out: &mut Writer) -> Result<(), AllocError> {
        out.begin_object()?;
        print_member(out, "Format", &WRITTEN)?;
        out.key("Master")?;
        print_master(alloc, out, self)?;
        out.end_object()
    }

    fn state_of<S: Source>(alloc: Global, value: &S) -> Result<Master, Refusal> {
        let format = format_of(value)?;
        let controller = controller_under(value, "Master")?;
        check_members(controller, &["Name", "Spawns", "Ticket", "Workers"])?;
        let own = find_three::<_, _, RawTicket, _>(alloc, controller, "Name", "Workers", "Ticket")?;
        let records = find_list_in(alloc, controller, "Spawns", &format)?;
        let (((name, workers), ticket), records) = zip(own, records)?;
        let spawns = spawns_of(alloc, records)?;
        let ticket = ticket.build(alloc)?;
        Master::of_parts(alloc, name, workers, ticket, spawns)
    }
}
