ghost use Rattle.std.specs.Prelude.{◌≡◌, Ok, false, IfOk, IfErr};
ghost use Rattle.json_profile.specs.ReadAs.{IsReadAs, IsRefusalOf};
ghost use Rattle.stored_state.specs.Addressee.{name_of};
ghost use Rattle.stored_state.specs.AnyStep.{text_of};
ghost use Rattle.stored_state.specs.Opened.{any_state_read, kept_of};

use crate::any_kept::AnyKept;
use crate::kept::Kept;
use crate::kind::{Kind, kind_of};
use controller_form::StateForm;
use json_source::{Scratch, tree_of};
use keepers::Keep;
use master_core::Master;
use std::alloc::{AllocError, Global};
use ticket_tree::{Id, Refusal};
use worker_core::Worker;

/// A controller, whichever it is.
#[derive(Drop)]
pub enum AnyController {
    /// It owns the job's ticket.
    Master(Master),
    /// It works on parts of its master's ticket.
    Worker(Worker),
}

impl AnyController {
    /// Its name.
    pub fn name(&self) -> &Id
        ensures { result.now ≡ name_of self.now }
    {
        match self {
            AnyController::Master(master) => master.name(),
            AnyController::Worker(worker) => worker.name(),
        }
    }

    /// It beside a keeper that holds its state.
    pub(crate) fn beside<K: Keep>(self, keep: K) -> AnyKept<K>
        ensures { kept_of result ≡ record { controller = self; keep = keep; stale = false } }
    {
        match self {
            AnyController::Master(master) => AnyKept::Master(Kept::new_saved(master, keep)),
            AnyController::Worker(worker) => AnyKept::Worker(Kept::new_saved(worker, keep)),
        }
    }

    /// The text of its state, which is read as it.
    pub(crate) fn state_text(&self, alloc: Global) -> Result<Vec<u8>, AllocError>
        ensures text { IfOk result (λ b. b.items ≡ text_of self.now) }
        ensures again { IfOk result (λ b. IsReadAs any_state_read b.items (Ok self.now)) }
    {
        match self {
            AnyController::Master(master) => master.state_text(alloc),
            AnyController::Worker(worker) => worker.state_text(alloc),
        }
    }
}

/// The controller whose state bytes are the text of, whichever it is. Refuses `NotJson`;
/// `NotProfile` where not exactly one of the members `Master` and `Worker` is there; what the state
/// of the one that is there is refused for; and `Memory`.
pub(crate) fn controller_of(alloc: Global, bytes: &[u8]) -> Result<AnyController, Refusal>
    ensures ok { IfOk result (λ controller. IsReadAs any_state_read bytes.now (Ok controller)) }
    ensures refused { IfErr result (IsRefusalOf any_state_read bytes.now) }
{
    let mut scratch = Scratch::new(alloc);
    let tree = tree_of(alloc, bytes, &mut scratch)?;
    match kind_of(&tree)? {
        Kind::Master => Ok(AnyController::Master(Master::state_of(alloc, &tree)?)),
        Kind::Worker => Ok(AnyController::Worker(Worker::state_of(alloc, &tree)?)),
    }
}
