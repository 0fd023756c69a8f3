//! What is written of a run.

ghost use Rattle.std.specs.Prelude.{◌≡◌, ◌++◌, IfErr, IfOk, OnOk};
ghost use Rattle.jdf_loop.specs.EventLine as event_line;
ghost use Rattle.controller_form.specs.ShownMaster.{master_text};
ghost use Rattle.ticket_items.specs.declared.refusal.Refusal.TheVariants.{Memory};

use crate::event_line::EventLine;
use controller_form::push_shown;
use jdf_commands::push_line;
use master_core::Master;
use std::alloc::{AllocError, Global};
use streams::{Output, Refused};
use ticket_tree::Refusal;

/// Appends the line of an event.
fn push_event_line(alloc: Global, text: &mut Vec<u8>, line: &EventLine) -> Result<(), AllocError>
    ensures { OnOk result (text.new.items ≡ text.old.items ++ event_line.line_of line.now) }
{
    match line {
        EventLine::Answered(answer) => push_line(alloc, text, answer),
        EventLine::TooLarge => {
            text.extend_from_slice(Refused::TooLarge.line().as_bytes())?;
            Ok(())
        }
    }
}

/// Appends a line for each event.
fn push_event_lines(
    alloc: Global,
    text: &mut Vec<u8>,
    lines: &[EventLine],
) -> Result<(), AllocError>
    ensures { OnOk result (text.new.items ≡ text.old.items ++ event_line.lines lines.now) }
{
    for line in lines {
        push_event_line(alloc, text, line)?;
    }
    Ok(())
}

/// Whether a message was too large to be sent.
fn has_too_large(lines: &[EventLine]) -> bool
    ensures { result ≡ event_line.has_too_large lines.now }
{
    lines.iter().any(|line| line.is_too_large())
}

/// What is written of a run: a line for each event, and the text of the ticket that the master
/// shows at the end. Refuses `Memory` alone.
pub fn run_text(alloc: Global, lines: &[EventLine], master: &Master) -> Result<Output, Refusal>
    ensures text { IfOk result (λ output. output.text.items
        ≡ event_line.lines lines.now ++ master_text master.now) }
    ensures status { IfOk result (λ output. output.refused
        ≡ event_line.has_too_large lines.now) }
    ensures memory { IfErr result (λ e. e ≡ Memory) }
{
    let mut text = Vec::new(alloc);
    push_event_lines(alloc, &mut text, lines)?;
    push_shown(alloc, &mut text, master)?;
    Ok(Output {
        text,
        refused: has_too_large(lines),
    })
}
