//! What no schema can say of a message: which of its members go together.

use crate::located::LocatedValue;
use crate::quoted::QuotedText;
use crate::walk::Walk;
use std::alloc::AllocError;
use ticket_items::Refusal;

/// Looks at what a message says.
pub(crate) fn look_at_message<'a>(
    walk: &mut Walk<'a>,
    document: &LocatedValue<'a>,
) -> Result<(), AllocError> {
    let Some(jmf) = document.member("JMF") else {
        return Ok(());
    };
    walk.enter("JMF")?;
    if let Some(command) = jmf.member("Command") {
        walk.enter("Command")?;
        look_at_command(walk, jmf, command)?;
        walk.leave();
    }
    if let Some(response) = jmf.member("Response") {
        walk.enter("Response")?;
        look_at_response(walk, response)?;
        walk.leave();
    }
    walk.leave();
    look_at_part(walk, document, jmf)
}

/// The object that tells a command's queue entry, and its name.
fn params_of<'v, 'a>(command: &'v LocatedValue<'a>) -> Option<(&'a str, &'v LocatedValue<'a>)> {
    for (name, value) in command.members() {
        if name.ends_with("Params") {
            return Some((*name, value));
        }
    }
    None
}

/// The SpawnID that a command tells.
fn entry_of<'a>(command: &LocatedValue<'a>) -> Option<&'a str> {
    params_of(command)?.1.text_under("QueueEntryID")
}

/// Tells that the text under a name isn't one that ends in another text.
fn look_at_text<'a>(
    walk: &mut Walk<'a>,
    object: &LocatedValue<'a>,
    name: &'a str,
    wanted: &str,
    what: &str,
) -> Result<(), AllocError> {
    let Some(LocatedValue::Text(at, text)) = object.member(name) else {
        return Ok(());
    };
    if *text == wanted || !walk.seeks(Refusal::WrongMessage) {
        return Ok(());
    }
    let told = format!(in walk.alloc; "{} isn't {}, {what}", QuotedText(text), QuotedText(wanted))?;
    walk.enter(name)?;
    walk.tell(*at, told.as_str())?;
    walk.leave();
    Ok(())
}

/// What the id of a command begins with, by the name of the object that tells its queue entry.
fn front_of(params: &str) -> &'static str {
    match params {
        "QueueSubmissionParams" => "Q.",
        "ReturnQueueEntryParams" => "R.",
        _ => "A.",
    }
}

/// Looks at a command: its ID is that of its queue entry, and it is answered to its sender.
fn look_at_command<'a>(
    walk: &mut Walk<'a>,
    jmf: &LocatedValue<'a>,
    command: &LocatedValue<'a>,
) -> Result<(), AllocError> {
    let (Some((name, params)), Some(entry)) = (params_of(command), entry_of(command)) else {
        return Ok(());
    };
    let id = format!(in walk.alloc; "{}{entry}", front_of(name))?;
    look_at_text(
        walk,
        command,
        "ID",
        id.as_str(),
        "as its QueueEntryID has it",
    )?;
    let Some(sender) = jmf.text_under("SenderID") else {
        return Ok(());
    };
    let place = format!(in walk.alloc; "jmf:{sender}")?;
    walk.enter(name)?;
    look_at_text(
        walk,
        params,
        "ReturnJMF",
        place.as_str(),
        "as its SenderID has it",
    )?;
    walk.leave();
    Ok(())
}

/// The Type of a command, by what its id begins with.
fn type_of(id: &str) -> &'static str {
    if id.starts_with("Q.") {
        "SubmitQueueEntry"
    } else if id.starts_with("R.") {
        "ReturnQueueEntry"
    } else {
        "AbortQueueEntry"
    }
}

/// Looks at a response: its ID, Type and queue entry are those of the command that it is to.
fn look_at_response<'a>(
    walk: &mut Walk<'a>,
    response: &LocatedValue<'a>,
) -> Result<(), AllocError> {
    let Some(command) = response.text_under("refID") else {
        return Ok(());
    };
    let id = format!(in walk.alloc; "{command}.a")?;
    look_at_text(walk, response, "ID", id.as_str(), "as its refID has it")?;
    look_at_text(
        walk,
        response,
        "Type",
        type_of(command),
        "as its refID has it",
    )?;
    let (Some(entry), Some((_, spawn))) = (response.member("QueueEntry"), command.split_once("."))
    else {
        return Ok(());
    };
    walk.enter("QueueEntry")?;
    look_at_text(walk, entry, "QueueEntryID", spawn, "as the refID has it")?;
    walk.leave();
    Ok(())
}

/// Looks at the part beside a command, which is that of its queue entry.
fn look_at_part<'a>(
    walk: &mut Walk<'a>,
    document: &LocatedValue<'a>,
    jmf: &LocatedValue<'a>,
) -> Result<(), AllocError> {
    let (Some(part), Some(command)) = (document.member("JDF"), jmf.member("Command")) else {
        return Ok(());
    };
    let Some(entry) = entry_of(command) else {
        return Ok(());
    };
    walk.enter("JDF")?;
    look_at_text(walk, part, "SpawnID", entry, "as the QueueEntryID has it")?;
    walk.leave();
    Ok(())
}
