//! The command `explain`.

ghost use Rattle.std.specs.Prelude.{◌≡◌, IfErr, IfOk, false};
ghost use Rattle.ticket_items.specs.declared.refusal.Refusal.TheVariants.{Memory};
ghost use Rattle.streams.specs.Streams.{traffic};
ghost use Rattle.streams.specs.declared.fault.Fault.TheVariants.{Input};
ghost use Rattle.streams.specs.declared.refused.Refused.TheVariants.{Core};
ghost use Rattle.refusal_rows.specs.Rows as rows;
ghost use Rattle.document_commands.specs.ExplainCommand.{EndsRow, no_refusal_text};
ghost use Rattle.document_commands.specs.Told.{TellsText};

use crate::told::tell_text;
use refusal_rows::text_of;
use std::alloc::Global;
use std::io::Write;
use streams::{Counted, Fault, Output, finish};

/// The exit status for a number that no refusal has.
const NO_REFUSAL: u8 = 2;

/// What is told of a number that no refusal has.
const NO_REFUSAL_TEXT: &str = "error: no refusal has this number\n\nUsage: jdf_cli explain <N>\n";

/// Tells that no refusal has a number, as far as `faults` takes it. Answers `NO_REFUSAL`.
fn tell_no_refusal<F: Write>(faults: &mut Counted<F>) -> u8
    ensures errors { TellsText no_refusal_text (traffic F.contents faults.old faults.new) }
    ensures status { result ≡ NO_REFUSAL }
{
    tell_text(faults, NO_REFUSAL_TEXT);
    NO_REFUSAL
}

/// A text as an output.
fn text_output(alloc: Global, text: &str) -> Result<Output, Fault>
    ensures text { IfOk result (λ o. (o.text.items ≡ text.now) × (o.refused ≡ false)) }
    ensures memory { IfErr result (λ fault. fault ≡ Input (Core Memory)) }
{
    Ok(Output {
        text: String::from_str(alloc, text)?.into_bytes(),
        refused: false,
    })
}

/// Writes what the refusal of a number means: the row of the table of refusals that has it. Answers
/// the exit status: 0, or that of a fault where memory ran out or a write failed, which it tells in
/// `faults`. Where no refusal has the number it writes nothing, tells that in `faults`, and answers
/// 2.
pub fn run_explain<W: Write, F: Write>(
    alloc: Global,
    number: &str,
    writer: &mut Counted<W>,
    faults: &mut Counted<F>,
) -> u8
    // Proved: `explain` writes the row that has the number, all of it and nothing else, with
    // status 0; where none has it, it writes nothing, with status 2.
    ensures { EndsRow (rows.text_of number.now) (traffic W.contents writer.old writer.new)
        (traffic F.contents faults.old faults.new) result }
{
    match text_of(number) {
        Some(text) => finish(text_output(alloc, text), writer, faults),
        None => tell_no_refusal(faults),
    }
}
