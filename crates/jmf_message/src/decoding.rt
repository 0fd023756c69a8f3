//! Reading messages.

ghost use Rattle.std.specs.Prelude.{◌≡◌, ◌==◌, Err, None, Ok, Some, true, IfErr, IfOk};
ghost use Rattle.std.specs.Option.{option_map_or};
ghost use Rattle.json_items.specs.Validation.{Answers, Finds, first_fault};
ghost use Rattle.json_items.specs.PartDraft.{RawPart as PartSeen, part_form as form_of_part};
ghost use Rattle.json_items.specs.PartForm as part_form;
ghost use Rattle.json_items.specs.Spawns.{spawn_named};
ghost use Rattle.jmf_message.specs.Decoded as decoded;
ghost use Rattle.controller.specs.Words.{may_be_sent};

use crate::family::Family;
use crate::jmf::Jmf;
use controller::{Body, Command, Message};
use json_items::{Form, Raw, Validation, check_members, text_under, zip};
use json_profile::RawPart;
use json_source::{Scratch, Source, tree_of};
use std::alloc::Global;
use ticket_tree::{Part, Refusal, SpawnId};

/// The body of what is said without a part.
fn body_alone(said: Family) -> Option<Body>
    ensures { result ≡ decoded.body_without_part said }
{
    match said {
        Family::Command(asked, spawn_id) => match asked {
            Command::Submit | Command::Return => None,
            Command::Abort => Some(Body::Abort(spawn_id)),
        },
        Family::Answer(of, spawn_id, result) => Some(Body::Answer {
            of,
            spawn_id,
            result,
        }),
    }
}

/// The message of a JMF object without a part.
fn message_alone(alloc: Global, jmf: &Jmf<'_>) -> Result<Message, Refusal>
    ensures answers { Answers result
        (decoded.draft_read (record { jmf = jmf.now; part = None })) }
    ensures sent { IfOk result (λ message. may_be_sent message.body ≡ true) }
{
    let body = body_alone(jmf.checked_family()?).ok_or(Refusal::WrongMessage)?;
    let (sender, receiver) = jmf.parties(alloc)??;
    Ok(Message {
        sender,
        receiver,
        at: jmf.at(),
        body,
    })
}

/// Whether a text names a spawn.
fn names_spawn(text: &str, spawn: SpawnId) -> bool
    ensures { result ≡ (spawn_named text.now == spawn) }
{
    let number = spawn.number();
    SpawnId::parse(text).is_ok_and(|named| named.number() == number)
}

/// What is asked by what is said, of the spawn that a text names.
fn command_of(said: Family, spawn: &str) -> Option<Command>
    ensures { result ≡ decoded.command_of (spawn_named spawn.now) said }
{
    match said {
        Family::Command(asked, other) => names_spawn(spawn, other).then_some(asked),
        Family::Answer(_, _, _) => None,
    }
}

/// The body of a command of the spawn of a part.
fn body_with(asked: Command, part: Part) -> Body
    ensures body { result ≡ decoded.body_with asked part }
    ensures sent { may_be_sent result ≡ true }
{
    match asked {
        Command::Submit => Body::Submit(part),
        Command::Return => Body::Return(part),
        Command::Abort => Body::Abort(part.spawn_id()),
    }
}

/// The message of a JMF object, and of the part beside it, of which this is found and whose spawn
/// has an id of this text.
fn message_with(
    alloc: Global,
    jmf: &Jmf<'_>,
    spawn: &str,
    part: Validation<RawPart>,
) -> Result<Message, Refusal>
    ensures answers { (raw : PartSeen) → raw.spawn ≡ spawn_named spawn.now
        → Finds (first_fault part_form.has_names part_form.has_texts) part (Some raw)
        → Answers result
        (decoded.draft_read (record { jmf = jmf.now; part = Some raw })) }
    ensures sent { IfOk result (λ message. may_be_sent message.body ≡ true) }
{
    let asked = command_of(jmf.checked_family()?, spawn).ok_or(Refusal::WrongMessage)?;
    let parties = jmf.parties(alloc)?;
    let ((sender, receiver), part) = zip(parties, part)?;
    let part = part.build(alloc)?;
    Ok(Message {
        sender,
        receiver,
        at: jmf.at(),
        body: body_with(asked, part),
    })
}

/// The message of a JMF object, and of the part that a value beside it is.
fn message_beside<S: Source>(alloc: Global, jmf: &Jmf<'_>, part: &S) -> Result<Message, Refusal>
    ensures answers { Answers result (option_map_or
        (λ raw. decoded.draft_read (record { jmf = jmf.now; part = Some raw }))
        (form_of_part (S.content part.now)) (Err Refusal.NotProfile)) }
    ensures sent { IfOk result (λ message. may_be_sent message.body ≡ true) }
{
    let spawn = text_under(part, "SpawnID").ok_or(Refusal::NotProfile)?;
    let found = RawPart::find(alloc, part)?;
    message_with(alloc, jmf, spawn, found)
}

/// The message that a value is. A part stands beside a JMF object with which one goes, and none
/// beside another.
#[tactic(auto, unfolding(crate::specs::Form::document_form))]
fn message_in<S: Source>(alloc: Global, value: &S) -> Result<Message, Refusal>
    ensures answers { Answers result (decoded.message_read (S.content value.now)) }
    ensures sent { IfOk result (λ message. may_be_sent message.body ≡ true) }
{
    check_members(value, &["JDF", "JMF"])?;
    let jmf = Jmf::of(alloc, value.member("JMF").ok_or(Refusal::NotProfile)?)?;
    match (value.member("JDF"), jmf.has_part()) {
        (Some(part), true) => message_beside(alloc, &jmf, part),
        (None, false) => message_alone(alloc, &jmf),
        (Some(_), false) | (None, true) => Err(Refusal::NotProfile),
    }
}

/// The message that bytes are. Refuses the first of `NotJson`, `NotProfile` (by the members and
/// their kinds alone), `WrongVersion`, `WrongMessage` (all else that no message says), `BadId`,
/// `BadText`, `ReservedStatus`, `DuplicateId`, `TooDeep` and `UnresolvedLink` that stands in them,
/// each looked for in all of them before the next one is; `Memory` may come before any. The message
/// may be sent again.
pub fn decode(alloc: Global, bytes: &[u8]) -> Result<Message, Refusal>
    // Proved: Bytes are read as the one table of messages says, or refused for their first fault;
    // what was read may be sent again.
    // By `found`, `sent`, `refused`.
    ensures found { IfOk result (λ message. decoded.IsDecodedAs bytes.now (Ok message)) }
    ensures sent { IfOk result (λ message. may_be_sent message.body ≡ true) }
    ensures refused { IfErr result (decoded.IsRefusalOf bytes.now) }
{
    let mut scratch = Scratch::new(alloc);
    let tree = tree_of(alloc, bytes, &mut scratch)?;
    message_in(alloc, &tree)
}
