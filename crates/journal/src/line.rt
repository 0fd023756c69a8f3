//! The line of a step: a JSON object.

ghost use Rattle.std.specs.Prelude.{◌≡◌, ◌∷◌, OnOk, IfOk};
ghost use Rattle.json_text.specs.Printed.{AreMembersPrinted, IsPrinted};
ghost use Rattle.serde_json.specs.Data.{no_members};
ghost use Rattle.journal.specs.Line as line;

use controller::Reply;
use json::Writer;
use json_text::{print_member, print_text, written_text};
use std::alloc::{AllocError, Global};
use ticket_items::Id;

/// A step that was saved, as its line tells it.
#[derive(Clone, Copy)]
struct Step<'a> {
    /// Who asked for it, where that is known.
    by: Option<&'a str>,
    /// The name of the controller.
    controller: &'a str,
    reply: Reply,
    /// When it was made, in seconds since 1970.
    at: u64,
    /// The name of the order or of the message.
    what: &'a str,
}

/// Prints who asked for a step, where that is known.
fn print_by(out: &mut Writer, by: Option<&str>) -> Result<(), AllocError>
    ensures { OnOk result (AreMembersPrinted
        (line.with_by (line.who by.entry) no_members) out.old out.new) }
{
    match by {
        Some(name) => print_text(out, "By", name),
        None => Ok(()),
    }
}

/// Prints the spawn that a reply tells of, if it tells of one.
fn print_spawn(alloc: Global, out: &mut Writer, reply: Reply) -> Result<(), AllocError>
    ensures { OnOk result (AreMembersPrinted
        (line.with_spawn (line.spawn_of_reply reply) no_members) out.old out.new) }
{
    match reply.spawn() {
        Some(spawn) => {
            let id = spawn.to_id(alloc)?;
            print_member(out, "SpawnID", &id)
        }
        None => Ok(()),
    }
}

/// Prints a step.
fn print_step(alloc: Global, out: &mut Writer, step: &Step<'_>) -> Result<(), AllocError>
    ensures { OnOk result (IsPrinted (line.step_data step.now) out.old out.new) }
{
    out.begin_object()?;
    print_by(out, step.by)?;
    print_text(out, "Controller", step.controller)?;
    print_text(out, "Reply", step.reply.word())?;
    print_spawn(alloc, out, step.reply)?;
    print_member(out, "Time", &step.at)?;
    print_text(out, "What", step.what)?;
    out.end_object()
}

/// The line of a step.
fn line_of(alloc: Global, step: &Step<'_>) -> Result<Vec<u8>, AllocError>
    ensures { IfOk result (λ made. made.items ≡ line.step_line step.now) }
{
    let mut out = Writer::new(Vec::new(alloc));
    print_step(alloc, &mut out, step)?;
    let mut made = written_text(out);
    made.push(b'\n')?;
    Ok(made)
}

/// The line of a step that was saved, at the controller of a name, at a time in seconds since 1970,
/// of the order or the message of a name; by whom, where that is known.
pub fn step_line(
    alloc: Global,
    controller: &Id,
    by: Option<&str>,
    what: &str,
    reply: Reply,
    at: u64,
) -> Result<Vec<u8>, AllocError>
    // Proved: The line of a step is a JSON object with who asked, where that is known, the
    // controller, the reply's word, its spawn, if it tells one, the time, and the name of what the
    // step was made of, and nothing else.
    ensures { IfOk result (λ made. made.items
        ≡ line.told_line (line.who by.entry) controller.now reply at what.now) }
{
    let step = Step {
        by,
        controller: controller.as_str(),
        reply,
        at,
        what,
    };
    line_of(alloc, &step)
}
