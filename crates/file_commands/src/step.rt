//! What is written of a step, and why nothing is.

ghost use Rattle.std.specs.Prelude.{◌≡◌, ◌++◌, false, string_bytes, IfErr, IfOk, OnOk};
ghost use Rattle.streams.specs.declared.refused.Refused.TheVariants.{Core};
ghost use Rattle.streams.specs.declared.fault.Fault.TheVariants.{Input};
ghost use Rattle.ticket_items.specs.declared.refusal.Refusal.TheVariants.{Memory};
ghost use Rattle.std.specs.Option.{option_map};
ghost use Rattle.file_commands.specs.Step as steps;

use controller::Reply;
use std::alloc::{AllocError, Global};
use streams::{Fault, Output, Refused};
use ticket_tree::Refusal;
use world_items::{Answer, Word};
use world_script::answer_text;

/// The text of a reply or a refusal.
pub(crate) fn reply_text(alloc: Global, reply: Result<Reply, Refusal>) -> Result<String, AllocError>
    ensures { IfOk result (λ text. string_bytes text ≡ steps.reply_text reply) }
{
    let answer = Answer {
        word: Word::of(reply),
        number: None,
    };
    answer_text(alloc, &answer)
}

/// The line of a reply or a refusal.
fn reply_line(alloc: Global, reply: Result<Reply, Refusal>) -> Result<Vec<u8>, AllocError>
    ensures { IfOk result (λ line. line.items ≡ steps.reply_line reply) }
{
    let mut line = reply_text(alloc, reply)?.into_bytes();
    line.push(b'\n')?;
    Ok(line)
}

/// Appends a text on a line of its own, if there is one.
pub(crate) fn push_text(lines: &mut Vec<u8>, text: &Option<Vec<u8>>) -> Result<(), AllocError>
    ensures { OnOk result (lines.new.items
        ≡ lines.old.items ++ steps.text_line (option_map (λ b. b.items) text.now)) }
{
    match text {
        None => Ok(()),
        Some(text) => {
            lines.extend_from_slice(text.as_slice())?;
            lines.push(b'\n')?;
            Ok(())
        }
    }
}

/// The line of a reply, and the text that goes out on a line of its own. Refuses `Memory` alone.
pub fn step_output(
    alloc: Global,
    reply: Result<Reply, Refusal>,
    message: &Option<Vec<u8>>,
) -> Result<Output, Fault>
    // Proved: What is written of a step is its reply and its text, and of an order what was noted
    // stays beside it.
    // By `lines`, `status`, `memory`; `order_noted`: `lines`, `status`, `notes`, `memory`.
    ensures lines { IfOk result (λ output. output.text.items
        ≡ steps.step_lines reply (option_map (λ b. b.items) message.now)) }
    ensures status { IfOk result (λ output. output.refused ≡ steps.is_refused reply) }
    ensures memory { IfErr result (λ f. f ≡ Input (Core Memory)) }
{
    let mut text = reply_line(alloc, reply)?;
    push_text(&mut text, message)?;
    Ok(Output {
        text,
        refused: reply.is_err(),
    })
}

/// An output by which nothing was refused.
pub(crate) fn output_unrefused(text: Vec<u8>) -> Output
    ensures text { result.text.items ≡ text.items }
    ensures accepted { result.refused ≡ false }
{
    Output {
        text,
        refused: false,
    }
}

/// The fault that a refusal of a step is.
pub fn fault_of(refused: Refused) -> Fault
    ensures { result ≡ steps.fault_of refused }
{
    match refused {
        Refused::Core(refusal) => Fault::Input(Refused::Core(refusal)),
        other => Fault::Device(other),
    }
}
