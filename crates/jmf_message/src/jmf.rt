ghost use Rattle.std.specs.Prelude.{◌≡◌, Some, true, IfOk, IfSome, OnOk};
ghost use Rattle.ticket_items.specs.Names as names;
ghost use Rattle.ticket_items.specs.SpawnId.{is_spawn_number};
ghost use Rattle.json_source.specs.Read.{Gives};
ghost use Rattle.jmf_message.specs.Form as forms;
ghost use Rattle.jmf_message.specs.Items.{item_data};
ghost use Rattle.jmf_message.specs.Family as said;
ghost use Rattle.jmf_message.specs.Written as written;

use crate::commands::{command_asked, command_of};
use crate::family::{Family, confirmed_family, family_item, family_of};
use crate::items::{Item, number, object, text};
use crate::responses::{answer_in, is_response};
use controller::Message;
use json_items::{Validation, check_members, id_in, number_under, text_under, zip};
use json_source::Source;
use std::alloc::{AllocError, Global};
use std::marker::Model;
use ticket_tree::{Id, Refusal};

/// The Version of the standard that messages name.
pub const VERSION: &str = "1.5";

/// The members of a JMF object.
const JMF_MEMBERS: &[&str] = &[
    "Command",
    "ReceiverID",
    "Response",
    "SenderID",
    "TimeStamp",
    "Version",
];

/// A JMF object: who sends it to whom and when, with any texts and numbers. What it says may be
/// sent.
#[derive(Drop)]
pub struct Jmf<'a> {
    receiver: &'a str,
    sender: &'a str,
    at: u64,
    version: &'a str,
    has_part: bool,
    said: Option<Family>,
}

impl<'a> Model for Jmf<'a> {
    ghost use Rattle.std.specs.Prelude.{◌≡◌, true, IfSome};
    ghost use Rattle.jmf_message.specs.Form.{RawJmf};
    ghost use Rattle.jmf_message.specs.Family.{can_be_sent};

    ghost Value = { RawJmf };

    ghost view = { λ j. record {
      receiver = j.receiver.now;
      sender = j.sender.now;
      at = j.at;
      version = j.version.now;
      has_part = j.has_part;
      said = j.said;
    } };

    ghost invariant = { λ j. IfSome j.said (λ s. can_be_sent s ≡ true) };
}

/// Whether a part goes with a JMF object, which has exactly one of a command and a response, and
/// what its sender says, if it is what a message may say. Refuses `NotProfile`, and `Memory`.
fn family_in<S: Source>(
    alloc: Global,
    sender: &str,
    jmf: &S,
) -> Result<(bool, Option<Family>), Refusal>
    ensures value { Gives (λ found. found) result
        (forms.family_form sender.now (S.content jmf.now)) }
    ensures sent { IfOk result (λ found. IfSome found.1 (λ s. said.can_be_sent s ≡ true)) }
{
    match (jmf.member("Command"), jmf.member("Response")) {
        (Some(command), None) => {
            let asked = command_of(command).ok_or(Refusal::NotProfile)?;
            let said = command_asked(asked, command);
            Ok((
                asked.row().has_part,
                confirmed_family(alloc, sender, said, command)?,
            ))
        }
        (None, Some(response)) => {
            if !is_response(response) {
                return Err(Refusal::NotProfile);
            }
            let said = answer_in(response);
            Ok((false, confirmed_family(alloc, sender, said, response)?))
        }
        (None, None) | (Some(_), Some(_)) => Err(Refusal::NotProfile),
    }
}

impl<'a> Jmf<'a> {
    ghost use Rattle.std.specs.Prelude.{◌≡◌, Some, true, IfOk};
    ghost use Rattle.json_items.specs.Validation.{Reads, on_both};
    ghost use Rattle.json_source.specs.Read.{Gives};
    ghost use Rattle.ticket_items.specs.Names as names;
    ghost use Rattle.jmf_message.specs.Decoded.{checked_family};
    ghost use Rattle.jmf_message.specs.Form.{jmf_form};
    ghost use Rattle.jmf_message.specs.Family.{can_be_sent};

    /// The JMF object that a value is. Refuses `NotProfile`, and `Memory`.
    #[tactic(auto, unfolding(crate::specs::Form::jmf_form))]
    pub fn of<S: Source>(alloc: Global, value: &'a S) -> Result<Jmf<'a>, Refusal>
        ensures { Gives (λ jmf. jmf) result (jmf_form (S.content value.now)) }
    {
        check_members(value, JMF_MEMBERS)?;
        let receiver = text_under(value, "ReceiverID").ok_or(Refusal::NotProfile)?;
        let sender = text_under(value, "SenderID").ok_or(Refusal::NotProfile)?;
        let at = number_under(value, "TimeStamp").ok_or(Refusal::NotProfile)?;
        let version = text_under(value, "Version").ok_or(Refusal::NotProfile)?;
        let (has_part, said) = family_in(alloc, sender, value)?;
        Ok(Jmf {
            receiver,
            sender,
            at,
            version,
            has_part,
            said,
        })
    }

    /// Whether a part goes with it.
    pub fn has_part(&self) -> bool
        ensures { result ≡ self.now.has_part }
    {
        self.has_part
    }

    /// The TimeStamp, in seconds since 1970.
    pub fn at(&self) -> u64
        ensures { result ≡ self.now.at }
    {
        self.at
    }

    /// What is said. Refuses `WrongVersion` where it isn't of the right Version, and `WrongMessage`
    /// where it says what no message may.
    pub fn checked_family(&self) -> Result<Family, Refusal>
        ensures value { result ≡ checked_family self.now }
        ensures sent { IfOk result (λ s. can_be_sent s ≡ true) }
    {
        if self.version != VERSION {
            return Err(Refusal::WrongVersion);
        }
        self.said.ok_or(Refusal::WrongMessage)
    }

    /// The sender and the receiver. Refuses `Memory` alone.
    pub fn parties(&self, alloc: Global) -> Result<Validation<(Id, Id)>, Refusal>
        ensures { Reads (on_both names.is_name names.is_name) (λ _. true) result
            (Some (self.now.sender, self.now.receiver)) }
    {
        let sender = id_in(alloc, self.sender)?;
        let receiver = id_in(alloc, self.receiver)?;
        Ok(zip(sender, receiver))
    }
}

/// The JMF object of a message. Its sender and its receiver are ids, and its spawn has a number
/// that one may have.
pub fn jmf_item(alloc: Global, message: &Message) -> Result<Item, AllocError>
    ensures value { IfOk result (λ item. item_data item ≡ written.jmf_data message.now) }
    ensures sender { OnOk result (names.is_name message.now.sender ≡ true) }
    ensures receiver { OnOk result (names.is_name message.now.receiver ≡ true) }
    ensures valid { OnOk result
        (is_spawn_number (written.spawn_said (written.family_of message.now.body)) ≡ true) }
{
    let sender = message.sender.as_str();
    let said = family_of(&message.body);
    let family = family_item(alloc, sender, &said)?;
    let receiver = ("ReceiverID", text(alloc, message.receiver.as_str())?);
    let sender = ("SenderID", text(alloc, sender)?);
    let at = ("TimeStamp", number(message.at));
    let version = ("Version", text(alloc, VERSION)?);
    match said {
        Family::Command(_, _) => {
            let command = ("Command", family);
            Ok(object(vec![in alloc; command, receiver, sender, at, version]?))
        }
        Family::Answer(_, _, _) => {
            let response = ("Response", family);
            Ok(object(vec![in alloc; receiver, response, sender, at, version]?))
        }
    }
}
