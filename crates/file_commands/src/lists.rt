ghost use Rattle.std.specs.Prelude.{◌≡◌, ◌++◌, false, true, IfOk, OnOk};
ghost use Rattle.file_commands.specs.Listing as listing;

use crate::asked::ListRequest;
use list_text::{HEAD_LINE, push_master_list, push_worker_list};
use std::alloc::{AllocError, Global};
use stored_state::AnyController;

/// Lines of the work of controllers: first of what is open, and the rest.
#[derive(Drop)]
pub(crate) struct Lists {
    pub(crate) first: Vec<u8>,
    pub(crate) rest: Vec<u8>,
}

/// Appends the lines of a controller's works that are open, or of all others.
fn push_lines(
    alloc: Global,
    text: &mut Vec<u8>,
    controller: &AnyController,
    are_open: bool,
    asked: ListRequest,
) -> Result<(), AllocError>
    ensures { OnOk result (text.new.items
        ≡ text.old.items ++ listing.lines_of are_open asked controller.now) }
{
    let ListRequest { is_json, now, .. } = asked;
    match controller {
        AnyController::Master(master) => {
            push_master_list(alloc, text, master, are_open, is_json, now)
        }
        AnyController::Worker(worker) => {
            push_worker_list(alloc, text, worker, are_open, is_json, now)
        }
    }
}

/// Appends the lines of a controller's works that aren't open, unless only what is open is wanted.
fn push_other(
    alloc: Global,
    text: &mut Vec<u8>,
    controller: &AnyController,
    asked: ListRequest,
) -> Result<(), AllocError>
    ensures { OnOk result (text.new.items
        ≡ text.old.items ++ listing.other_lines asked controller.now) }
{
    if asked.is_open {
        return Ok(());
    }
    push_lines(alloc, text, controller, false, asked)
}

/// What stands above the lines: nothing where they are JSON.
fn head_of(is_json: bool) -> &'static str
    ensures { result.now ≡ listing.head_of is_json }
{
    if is_json { "" } else { HEAD_LINE }
}

impl Lists {
    ghost use Rattle.std.specs.Prelude.{◌≡◌, ◌++◌, [], true, IfOk, OnOk};
    ghost use Rattle.file_commands.specs.Listing as listing;

    /// No lines.
    pub(crate) fn new(alloc: Global) -> Lists
        ensures first { result.first.items ≡ [] }
        ensures rest { result.rest.items ≡ [] }
    {
        Lists {
            first: Vec::new(alloc),
            rest: Vec::new(alloc),
        }
    }

    /// Appends the lines of a controller's work.
    pub(crate) fn push(
        &mut self,
        alloc: Global,
        controller: &AnyController,
        asked: ListRequest,
    ) -> Result<(), AllocError>
        ensures first { OnOk result (self.new.first.items
            ≡ self.old.first.items ++ listing.lines_of true asked controller.now) }
        ensures rest { OnOk result (self.new.rest.items
            ≡ self.old.rest.items ++ listing.other_lines asked controller.now) }
    {
        push_lines(alloc, &mut self.first, controller, true, asked)?;
        push_other(alloc, &mut self.rest, controller, asked)
    }

    /// What stands above the lines, and those: what is open first.
    pub(crate) fn text(&self, alloc: Global, is_json: bool) -> Result<Vec<u8>, AllocError>
        ensures { IfOk result (λ text. text.items
            ≡ listing.head_of is_json ++ self.now.first.items ++ self.now.rest.items) }
    {
        let mut text = Vec::new(alloc);
        text.extend_from_slice(head_of(is_json).as_bytes())?;
        text.extend_from_slice(self.first.as_slice())?;
        text.extend_from_slice(self.rest.as_slice())?;
        Ok(text)
    }
}
