//! Orders to the controller in a file.

ghost use Rattle.std.specs.Prelude.{◌≡◌, true, IfOk, IfErr, OnErr};
ghost use Rattle.std.specs.Option.{option_map};
ghost use Rattle.jdf_words.specs.declared.kept_call.KeptCall.TheVariants.{Order};
ghost use Rattle.journal.specs.Journal.{IsJournaled, IsLeft};
ghost use Rattle.journal.specs.Line.{who};
ghost use Rattle.keepers.specs.InFile.{InFile};
ghost use Rattle.keepers.specs.OnDisk.{OnDisk};
ghost use Rattle.file_commands.specs.Calls as calls;
ghost use Rattle.file_commands.specs.Calls.{DoesNone, DoesNoneOf};
ghost use Rattle.file_commands.specs.Commands.{DoesNoStep, DoesStep, GivesHeld};
ghost use Rattle.file_commands.specs.Commands.{GivesNoting, GivesStepOf};
ghost use Rattle.file_commands.specs.Journaled.{IsOrderLine, JournalsInFile, JournalsNone};
ghost use Rattle.file_commands.specs.Journaled.{OrderJournaled};
ghost use Rattle.file_commands.specs.Notes.{notes_of_order};
ghost use Rattle.file_commands.specs.Step.{is_refused, step_lines};
ghost use Rattle.stored_state.specs.Addressee.{name_of};
ghost use Rattle.stored_state.specs.AnyStep.{IsNoOrder, IsOrdered};
ghost use Rattle.stored_state.specs.Held.{KeptState};
ghost use Rattle.stored_state.specs.Opened.{controller_in, kept_of};
ghost use Rattle.stored_state.specs.declared.any_controller.AnyController.{AnyController};
ghost use Rattle.streams.specs.Streams.{traffic};
ghost use Rattle.streams.specs.declared.refused.Refused.TheVariants.{Core};
ghost use Rattle.streams.specs.declared.fault.Fault.TheVariants.{Input};
ghost use Rattle.ticket_items.specs.declared.refusal.Refusal.TheVariants.{Memory};

use crate::journaling::journal_order;
use crate::noted::OutputWithNotes;
use crate::notes::notes_of_order;
use crate::opening::{locked_keep, opened_again, snapshot_of};
use crate::step::{fault_of, step_output};
use controller::Reply;
use journal::{Journal, user_text};
use keepers::{Keep, Locks};
use std::alloc::Global;
use std::io::Read;
use stored_state::{AnyKept, OrderBytes, Snapshot};
use streams::{Counted, Fault, read_input};
use ticket_tree::Refusal;

/// What an order to the controller in a file gives out once its step is saved.
#[derive(Drop)]
pub struct OrderOutput {
    /// What the controller replies, or why it refused the order.
    pub reply: Result<Reply, Refusal>,
    /// The text of the message that goes out, if one does.
    pub message: Option<Vec<u8>>,
    /// What is noted of the reply and of the state then. Lines.
    pub notes: Vec<u8>,
}

/// What an order to the controller that a keeper holds gives out, once its step is saved, and the
/// controller beside its keeper as it is then. The text of a snapshot isn't read once more. Behind
/// the save the line of the step, by this one, is appended to the journal, unless the controller
/// refused the order.
fn order_held<K: Keep, J: Journal>(
    alloc: Global,
    keep: K,
    seen: Option<Snapshot>,
    input: &[u8],
    at: u64,
    by: Option<&str>,
    journal: &mut J,
) -> Result<(OrderBytes, AnyKept<K>), Fault>
    // Proved: What an order or a message to the controller that a keeper holds gives out is the
    // reply and the text of one step of it, and the controller beside its keeper as it is then: an
    // honest one holds the state that the step leaves, in the same place, which is read again as
    // it. Else it says why not, and what that leaves.
    // By `ok`, `refused`; `take_held`: `ok`, `refused`.
    ensures ok { IfOk result (λ given. GivesHeld K.is_honest K.held K.place (IsOrdered at)
        input.now keep (kept_of given.1)
        given.0.reply (option_map (λ b. b.items) given.0.message)) }
    ensures refused { IfErr result (DoesNoStep K.is_honest K.held K.place K.count K.load_fails
        K.save_fails IsNoOrder (IsOrdered at) input.now keep) }
    ensures journal { IfOk result (λ given. J.is_honest journal.old ≡ true →
        IsJournaled J.held J.is_missed
        (IsOrderLine (who by.entry) (name_of (controller_in given.1)) at input.now)
        given.0.reply journal.old journal.new) }
    ensures unsaved { OnErr result (J.is_honest journal.old ≡ true →
        IsLeft J.held J.is_missed journal.old journal.new) }
{
    let mut opened = opened_again(alloc, keep, seen)?;
    match opened.order(alloc, input, at) {
        Ok(given) => {
            journal_order(alloc, journal, &opened, by, input, &given.reply, at);
            Ok((given, opened))
        }
        Err(refused) => Err(fault_of(refused)),
    }
}

/// What such an order gives out, and what is noted of it; the keeper is let go.
fn order_given<K: Keep, J: Journal>(
    alloc: Global,
    keep: K,
    seen: Option<Snapshot>,
    input: &[u8],
    at: u64,
    by: Option<&str>,
    journal: &mut J,
) -> Result<OrderOutput, Fault>
    ensures ok { IfOk result (λ given. GivesNoting
        (λ after. GivesHeld K.is_honest K.held K.place (IsOrdered at) input.now keep after
        given.reply (option_map (λ b. b.items) given.message))
        (notes_of_order given.reply) given.notes.items) }
    ensures refused { IfErr result (DoesNoStep K.is_honest K.held K.place K.count K.load_fails
        K.save_fails IsNoOrder (IsOrdered at) input.now keep) }
    ensures journal { IfOk result (λ given. J.is_honest journal.old ≡ true →
        (after : KeptState AnyController K)
        × GivesHeld K.is_honest K.held K.place (IsOrdered at) input.now keep after
        given.reply (option_map (λ b. b.items) given.message)
        × IsJournaled J.held J.is_missed
        (IsOrderLine (who by.entry) (name_of after.controller) at input.now)
        given.reply journal.old journal.new) }
    ensures unsaved { IfErr result (λ fault. J.is_honest journal.old ≡ true →
        JournalsNone J.held J.is_missed journal.old journal.new fault) }
{
    let (given, opened) = order_held(alloc, keep, seen, input, at, by, journal)?;
    let notes = notes_of_order(alloc, &given.reply, &opened)?;
    let OrderBytes { reply, message } = given;
    Ok(OrderOutput {
        reply,
        message,
        notes,
    })
}

/// What an order to the controller in a file gives out, once its step is saved. Of a file that
/// holds the text of the snapshot still, that isn't read once more.
fn order_locked<R: Locks, J: Journal>(
    rt: &R,
    alloc: Global,
    file: &str,
    seen: Snapshot,
    input: &[u8],
    at: u64,
    by: Option<&str>,
    journal: &mut J,
) -> Result<OrderOutput, Fault>
    ensures ok { IfOk result (λ given. GivesNoting
        (λ after. GivesHeld calls.is_honest calls.file_bytes calls.place (IsOrdered at)
        input.now (calls.keep_in_file file.now) after
        given.reply (option_map (λ b. b.items) given.message))
        (notes_of_order given.reply) given.notes.items) }
    ensures refused { IfErr result (DoesNoneOf IsNoOrder (IsOrdered at) file.now input.now) }
    ensures journal { IfOk result (λ given. J.is_honest journal.old ≡ true →
        (after : KeptState AnyController (InFile OnDisk))
        × GivesHeld calls.is_honest calls.file_bytes calls.place (IsOrdered at) input.now
        (calls.keep_in_file file.now) after given.reply (option_map (λ b. b.items) given.message)
        × IsJournaled J.held J.is_missed
        (IsOrderLine (who by.entry) (name_of after.controller) at input.now)
        given.reply journal.old journal.new) }
    ensures unsaved { IfErr result (λ fault. J.is_honest journal.old ≡ true →
        JournalsNone J.held J.is_missed journal.old journal.new fault) }
{
    match locked_keep(rt, alloc, file) {
        Ok(keep) => order_given(alloc, keep, Some(seen), input, at, by, journal),
        Err(fault) => Err(fault),
    }
}

/// Who types, as a line of a journal tells it, where one is wanted and the system tells it.
pub fn typist<R: Locks, J: Journal>(rt: &R, alloc: Global, journal: &J) -> Option<String> {
    if journal.is_wanted() {
        user_text(rt, alloc)
    } else {
        None
    }
}

/// A text, if there is one.
fn text_of(text: &Option<String>) -> Option<&str> {
    match text {
        Some(text) => Some(text.as_str()),
        None => None,
    }
}

/// What an order to the controller in a file gives out, once its step is saved, and what is noted
/// of it. The file is looked at first, and where it holds no controller nothing is read. While the
/// input is read the file isn't locked: a step that somebody else makes meanwhile comes before this
/// one. It isn't locked any more once this is given out. Refuses as `run_file` says of `order`.
/// Behind the save, and while the file is locked, the line of the step is appended to the journal,
/// unless the controller refused the order.
pub fn order_in_file<R: Locks, I: Read, J: Journal>(
    rt: &R,
    alloc: Global,
    file: &str,
    at: u64,
    reader: &mut Counted<I>,
    journal: &mut J,
) -> Result<OrderOutput, Fault>
    // Proved: What an order or a message to the controller in a file gives out is the reply and
    // the text of a step of a controller that was kept in the file's place, before it and then. Of
    // an order it gives out too what the reply and the controller as it is then have noted.
    // By `ok`, `refused`; `take_in_file`: `ok`, `refused`.
    ensures ok { IfOk result (λ given. GivesNoting
        (λ after. GivesStepOf calls.is_honest calls.file_bytes calls.place (IsOrdered at)
        (calls.keep_in_file file.now) (traffic I.remaining reader.old reader.new) after
        given.reply (option_map (λ b. b.items) given.message))
        (notes_of_order given.reply) given.notes.items) }
    ensures refused { IfErr result (DoesNone IsNoOrder (IsOrdered at)
        file.now (traffic I.remaining reader.old reader.new)) }
    // Proved: An honest journal gets the line of the step of an order or a message in a file, or
    // misses it, which is told; where nothing was saved it is left as it was.
    // By `journal`, `unsaved`; `take_in_file`: `journal`, `unsaved`.
    ensures journal { IfOk result (λ given. J.is_honest journal.old ≡ true →
        OrderJournaled J.held J.is_missed at (calls.keep_in_file file.now)
        (traffic I.remaining reader.old reader.new) given.reply
        (option_map (λ b. b.items) given.message) journal.old journal.new) }
    ensures unsaved { IfErr result (λ fault. J.is_honest journal.old ≡ true →
        JournalsNone J.held J.is_missed journal.old journal.new fault) }
{
    let snapshot = snapshot_of(rt, alloc, file)?;
    let input = read_input(alloc, reader)?;
    let by = typist(rt, alloc, journal);
    order_locked(
        rt,
        alloc,
        file,
        snapshot,
        input.as_slice(),
        at,
        text_of(&by),
        journal,
    )
}

/// What is written and noted of an order's step that gave this out, and has this noted: the line of
/// the reply, and the text that goes out. Refuses `Memory` alone.
pub fn order_noted(
    alloc: Global,
    reply: Result<Reply, Refusal>,
    message: &Option<Vec<u8>>,
    notes: Vec<u8>,
) -> Result<OutputWithNotes, Fault>
    ensures lines { IfOk result (λ noted. noted.output.text.items
        ≡ step_lines reply (option_map (λ b. b.items) message.now)) }
    ensures status { IfOk result (λ noted. noted.output.refused ≡ is_refused reply) }
    ensures notes { IfOk result (λ noted. noted.notes.items ≡ notes.items) }
    ensures memory { IfErr result (λ f. f ≡ Input (Core Memory)) }
{
    match step_output(alloc, reply, message) {
        Ok(output) => Ok(OutputWithNotes { output, notes }),
        Err(fault) => Err(fault),
    }
}

/// What `order` writes and notes, once the step is saved.
pub(crate) fn order_output<R: Locks, I: Read, J: Journal>(
    rt: &R,
    alloc: Global,
    file: &str,
    at: u64,
    reader: &mut Counted<I>,
    journal: &mut J,
) -> Result<OutputWithNotes, Fault>
    // Proved: What `order`, `take`, `show` and `list` write and note of a file is what comes of the
    // step that is saved there, or of the controller that it holds, at the moment that is named, or
    // that of the clock; of a folder, of the controllers in its files. Else it is told why not.
    // By `ok`, `refused`; `take_output`, `show_output`, `list_output`: `ok`, `refused`;
    // `worker_text`.
    ensures ok { IfOk result (λ noted. DoesStep calls.is_honest calls.file_bytes calls.place
        (IsOrdered at)
        notes_of_order (calls.keep_in_file file.now) (traffic I.remaining reader.old reader.new)
        noted.output.text.items noted.output.refused noted.notes.items) }
    ensures refused { IfErr result (DoesNone IsNoOrder (IsOrdered at)
        file.now (traffic I.remaining reader.old reader.new)) }
    ensures journal { IfOk result (λ noted. J.is_honest journal.old ≡ true →
        JournalsInFile J.held J.is_missed file.now (Order at)
        (traffic I.remaining reader.old reader.new) noted.output.text.items
        journal.old journal.new) }
    ensures unsaved { IfErr result (λ fault. J.is_honest journal.old ≡ true →
        JournalsNone J.held J.is_missed journal.old journal.new fault) }
{
    let given = order_in_file(rt, alloc, file, at, reader, journal)?;
    let OrderOutput {
        reply,
        message,
        notes,
    } = given;
    order_noted(alloc, reply, &message, notes)
}
