//! New controllers beside their keeper.

ghost use Rattle.std.specs.Prelude.{◌≡◌, [], IfOk, IfErr};
ghost use Rattle.serde_json.specs.Written.{compact_text};
ghost use Rattle.stored_state.specs.AnyStep.{text_of};
ghost use Rattle.stored_state.specs.Held.{KeptState};
ghost use Rattle.stored_state.specs.Opened.{kept_of};
ghost use Rattle.stored_state.specs.declared.any_controller.AnyController.{AnyController as AnyControllerSeen};
ghost use Rattle.file_commands.specs.Beginning as begins;
ghost use Rattle.file_commands.specs.Commands.{Begins, BeginsNone};
ghost use Rattle.streams.specs.Streams.{traffic};

use crate::noted::OutputWithNotes;
use crate::step::{fault_of, output_unrefused};
use controller_form::{Opening, opening_of};
use keepers::Keep;
use std::alloc::Global;
use std::io::Read;
use stored_state::{Addressee, AnyController, AnyKept, Kept, StoredController};
use streams::{Counted, Fault, Output, Refused, read_input};

/// A controller beside its keeper, which holds its state from then on. Refuses as `Device`
/// `SaveFailed`, and `Memory`.
fn kept_of<C: StoredController, K: Keep>(
    alloc: Global,
    controller: C,
    keep: K,
) -> Result<Kept<C, K>, Fault>
    ensures ok { IfOk result (begins.IsBegun K.is_honest K.held K.place
        (λ c. compact_text (C.state_data c)) keep controller) }
    ensures refused { IfErr result (begins.IsNotKept K.save_fails keep
        (compact_text (C.state_data controller))) }
{
    match Kept::create(alloc, controller, keep) {
        Ok(kept) => Ok(kept),
        Err(refused) => Err(fault_of(refused)),
    }
}

/// The controller of an opening.
fn controller_of(opening: Opening) -> AnyController
    ensures { result ≡ begins.controller_of opening }
{
    match opening {
        Opening::Master(master) => AnyController::Master(master),
        Opening::Worker(worker) => AnyController::Worker(worker),
    }
}

/// The controller that the input begins, which is one that is addressed. Refuses as `Input` what
/// the input is refused for, `OtherName`, and `Memory`.
fn beginning_of(alloc: Global, input: &[u8], to: Addressee<'_>) -> Result<AnyController, Fault>
    ensures ok { IfOk result (begins.IsBeginning to.entry input.now) }
    ensures refused { IfErr result (begins.IsNoBeginning to.entry input.now) }
{
    let controller = controller_of(opening_of(alloc, input)?);
    if to.is(&controller) {
        return Ok(controller);
    }
    drop(controller);
    Err(Fault::Input(Refused::OtherName))
}

/// A controller beside its keeper, which holds its state from then on. Refuses as `kept_of`.
fn opened_of<K: Keep>(
    alloc: Global,
    controller: AnyController,
    keep: K,
) -> Result<AnyKept<K>, Fault>
    ensures ok { IfOk result (λ opened. begins.IsBegun K.is_honest K.held K.place text_of keep
        controller (kept_of opened)) }
    ensures refused { IfErr result (begins.IsNotKept K.save_fails keep (text_of controller)) }
{
    match controller {
        AnyController::Master(master) => Ok(AnyKept::Master(kept_of(alloc, master, keep)?)),
        AnyController::Worker(worker) => Ok(AnyKept::Worker(kept_of(alloc, worker, keep)?)),
    }
}

/// The controller that the input begins, which is one that is addressed, beside its keeper, which
/// holds its state from then on. Refuses as `Input` what the input is refused for, `OtherName`, and
/// `Memory`; and as `Device` `SaveFailed`.
pub fn begin<K: Keep>(
    alloc: Global,
    keep: K,
    input: &[u8],
    to: Addressee<'_>,
) -> Result<AnyKept<K>, Fault>
    // Proved: What the input of `new` begins stands beside its keeper, which holds it then, if it
    // is honest, in the same place, where it is a controller that is addressed; else it says why
    // not.
    // By `ok`, `refused`.
    ensures ok { IfOk result (λ opened. begins.IsBegunAs K.is_honest K.held K.place keep to.entry
        input.now (kept_of opened)) }
    ensures refused { IfErr result (begins.IsNotBegun K.save_fails keep to.entry input.now) }
{
    match beginning_of(alloc, input, to) {
        Ok(controller) => opened_of(alloc, controller, keep),
        Err(fault) => {
            drop(keep);
            Err(fault)
        }
    }
}

/// What `new` writes once its keeper holds what the input begins, which is nothing, and the
/// controller beside its keeper. Where there is a controller already, it refuses `SaveFailed` as
/// `Device`, and the input isn't read.
fn new_output<K: Keep, I: Read>(
    alloc: Global,
    keep: K,
    is_there: bool,
    to: Addressee<'_>,
    reader: &mut Counted<I>,
) -> Result<(Output, AnyKept<K>), Fault>
    // Proved: `new` writes nothing; where a controller is there already it reads nothing either,
    // and gives up as 57.
    // By `ok`, `refused`; `new_noted`: `ok`, `refused`.
    ensures ok { IfOk result (λ begun. Begins K.is_honest K.held K.place is_there keep to.entry
        (traffic I.remaining reader.old reader.new) (kept_of begun.1)
        begun.0.text.items begun.0.refused) }
    ensures refused { IfErr result (BeginsNone K.save_fails is_there keep to.entry
        (traffic I.remaining reader.old reader.new)) }
{
    if is_there {
        return Err(Fault::Device(Refused::SaveFailed));
    }
    let input = read_input(alloc, reader)?;
    let opened = begin(alloc, keep, input.as_slice(), to)?;
    Ok((output_unrefused(Vec::new(alloc)), opened))
}

/// The same, where nothing is noted and the keeper is let go.
pub(crate) fn new_noted<K: Keep, I: Read>(
    alloc: Global,
    keep: K,
    is_there: bool,
    to: Addressee<'_>,
    reader: &mut Counted<I>,
) -> Result<OutputWithNotes, Fault>
    ensures ok { IfOk result (λ noted. ((after : KeptState AnyControllerSeen K)
        × Begins K.is_honest K.held K.place is_there keep to.entry
        (traffic I.remaining reader.old reader.new) after
        noted.output.text.items noted.output.refused) × (noted.notes.items ≡ [])) }
    ensures refused { IfErr result (BeginsNone K.save_fails is_there keep to.entry
        (traffic I.remaining reader.old reader.new)) }
{
    let (output, opened) = new_output(alloc, keep, is_there, to, reader)?;
    drop(opened);
    Ok(OutputWithNotes::without_notes(alloc, output))
}
