//! A worker's state from JSON, and as JSON.

ghost use Rattle.std.specs.Prelude.{◌≡◌, OnOk};
ghost use Rattle.json_text.specs.Printed.{IsPrinted};
ghost use Rattle.controller_form.specs.States.StateFormat.{written_format};
ghost use Rattle.controller_form.specs.States.WorkerForm as form;
ghost use Rattle.controller_form.specs.States.Writable.{IsWritableWorker};

use crate::states::entry_text::print_entries;
use crate::states::format::{WRITTEN, controller_under, format_of};
use crate::states::state_form::StateForm;
use crate::states::stored_entries::build_entries;
use json::Writer;
use json_items::{check_members, find_list_in, find_two, zip};
use json_source::Source;
use json_text::print_member;
use std::alloc::{AllocError, Global};
use ticket_tree::Refusal;
use worker_core::Worker;

/// Prints a worker's own members. Its ids, names and texts are valid.
fn print_worker(alloc: Global, out: &mut Writer, worker: &Worker) -> Result<(), AllocError>
    ensures printed { OnOk result
        (IsPrinted (form.worker_data written_format worker.now) out.old out.new) }
    ensures known { OnOk result (IsWritableWorker worker.now) }
{
    out.begin_object()?;
    print_entries(alloc, out, worker.entries())?;
    print_member(out, "Master", worker.master())?;
    print_member(out, "Name", worker.name())?;
    out.end_object()
}

impl StateForm for Worker {
    ghost use Rattle.std.specs.List.{list_all};
    ghost use Rattle.controller_form.specs.States.EntryForm.{is_told_in};
    ghost use Rattle.controller_form.specs.States.WorkerForm as form;
    ghost use Rattle.controller_form.specs.declared.states.format.Format.TheVariants.{First};

    ghost state_data = { form.worker_state_data };

    ghost first_data = { form.worker_state_in First };

    ghost has_first = { λ w. list_all (is_told_in First) w.entries };

    ghost state_read = { form.worker_state_read };

    fn print_state(&self, alloc: Global, out: &mut Writer) -> Result<(), AllocError> {
        out.begin_object()?;
        print_member(out, "Format", &WRITTEN)?;
        out.key("Worker")?;
        print_worker(alloc, out, self)?;
        out.end_object()
    }

    fn state_of<S: Source>(alloc: Global, value: &S) -> Result<Worker, Refusal> {
        let format = format_of(value)?;
        let controller = controller_under(value, "Worker")?;
        check_members(controller, &["Entries", "Master", "Name"])?;
        let names = find_two(alloc, controller, "Name", "Master")?;
        let entries = find_list_in(alloc, controller, "Entries", &format)?;
        let ((name, master), entries) = zip(names, entries)?;
        let entries = build_entries(alloc, entries.into_vec())?;
        Worker::of_parts(alloc, name, master, entries)
    }
}
