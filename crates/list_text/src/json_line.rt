//! A line that is a JSON object.

ghost use Rattle.std.specs.Prelude.{◌≡◌, ◌∷◌, OnOk, IfOk};
ghost use Rattle.json.specs.Token.{Token as TokenSeen};
ghost use Rattle.serde_json.specs.Written.{compact_text};
ghost use Rattle.json_text.specs.Printed.{data_tokens, IsAppended, IsPrinted, IsReadAgain};
ghost use Rattle.list_text.specs.JsonLine as line;

use job_list::Work;
use json::Writer;
use json_text::{PrintForm, print_member, print_text, written_text};
use std::alloc::{AllocError, Global};
use ticket_items::Id;

/// Prints an item under a name, or `null` where there is none.
fn print_known<T: PrintForm>(
    out: &mut Writer,
    name: &str,
    item: &Option<T>,
) -> Result<(), AllocError>
    ensures printed { OnOk result (IsAppended
        (TokenSeen.key name.now ∷ data_tokens (line.known_data T.written item.now))
        out.old out.new) }
    ensures again { OnOk result (IsReadAgain (line.known_data T.written item.now)) }
{
    match item {
        None => {
            out.key(name)?;
            out.null()
        }
        Some(item) => print_member(out, name, item),
    }
}

/// Prints a controller's work at a time in seconds since 1970, whose message has so many bytes if
/// there is one.
pub fn print_work(
    alloc: Global,
    out: &mut Writer,
    controller: &Id,
    work: &Work,
    bytes: Option<u64>,
    now: u64,
) -> Result<(), AllocError>
    // Proved: As JSON the line of one work is told by itself.
    ensures { OnOk result (IsPrinted
        (line.work_data controller.now bytes now work.now) out.old out.new) }
{
    let spawn = work.spawn_id.to_id(alloc)?;
    let seconds = now.saturating_sub(work.at);
    out.begin_object()?;
    print_member(out, "At", &work.at)?;
    print_known(out, "Bytes", &bytes)?;
    print_member(out, "Controller", controller)?;
    print_known(out, "DescriptiveName", &work.descriptive_name)?;
    print_known(out, "JobID", &work.job)?;
    print_known(out, "Node", &work.node)?;
    print_text(out, "Phase", work.phase.word())?;
    print_member(out, "Seconds", &seconds)?;
    print_member(out, "SpawnID", &spawn)?;
    print_known(out, "Status", &work.status)?;
    print_member(out, "With", &work.other)?;
    out.end_object()
}

/// The same as a line.
pub fn json_line(
    alloc: Global,
    controller: &Id,
    work: &Work,
    bytes: Option<u64>,
    now: u64,
) -> Result<Vec<u8>, AllocError>
    ensures { IfOk result (λ made. made.items
        ≡ line.json_line controller.now bytes now work.now) }
{
    let mut out = Writer::new(Vec::new(alloc));
    print_work(alloc, &mut out, controller, work, bytes, now)?;
    let mut made = written_text(out);
    made.push(b'\n')?;
    Ok(made)
}
