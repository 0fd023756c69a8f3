ghost use Rattle.std.specs.Prelude.{◌≡◌, ◌<◌, [], ◌∷◌, ◌++◌, length, map, true, Ok, IfSome, OnOk};
ghost use Rattle.std.specs.Prelude.{vec_capacity, vec_len};
ghost use Rattle.std.specs.Prelude.{option_and_then, option_copied, option_map};
ghost use Rattle.jmf_message.specs.Decoded.{IsDecodedAs};
ghost use Rattle.stored_state.specs.Message.{IsMessageText, message_in, message_text, messages_in};
ghost use Rattle.plain_shop.specs.Settling as settling;
ghost use Rattle.world.specs.State as state;

use std::alloc::{AllocError, Global};
use std::marker::Model;

/// The text of a number, of which the first has the number 1.
fn text_of_number(texts: &[Vec<u8>], number: u64) -> Option<&Vec<u8>>
    ensures { option_copied result ≡ state.message_at texts.now number }
{
    match number.checked_sub(1) {
        None => None,
        Some(place) => texts.get(place as usize),
    }
}

/// Puts a text last, where there is room for it, and tells how many there are.
fn put(texts: &mut Vec<Vec<u8>>, text: Vec<u8>) -> u64
    requires { vec_len texts.old < vec_capacity texts.old }
    ensures items { texts.new.items ≡ texts.old.items ++ text ∷ [] }
    ensures count { result ≡ length texts.new.items }
{
    let _ = texts.push(text);
    texts.len() as u64
}

/// Every message that was sent, in the order in which they went out, each as its text.
#[derive(Drop)]
pub struct SentMessages {
    texts: Vec<Vec<u8>>,
}

impl Model for SentMessages {
    ghost use Rattle.std.specs.Prelude.{map, nat_lt, vec_capacity, vec_len};
    ghost use Rattle.std.specs.List.{All};
    ghost use Rattle.stored_state.specs.Message.{messages_in, IsMessageText};
    ghost use Rattle.world.specs.Sent.{SentMessages};

    ghost Value = { SentMessages };

    ghost view = { λ sent. record {
      messages = messages_in (map (λ t. t.items) sent.texts.items);
      has_room = nat_lt (vec_len sent.texts) (vec_capacity sent.texts);
    } };

    ghost invariant = { λ sent. All IsMessageText (map (λ t. t.items) sent.texts.items) };
}

impl SentMessages {
    /// None.
    pub fn new(alloc: Global) -> SentMessages
        ensures { result.messages ≡ [] }
    {
        SentMessages {
            texts: Vec::new(alloc),
        }
    }

    /// Their texts, which are read as they are.
    pub fn texts(&self) -> &[Vec<u8>]
        ensures texts { map (λ t. t.items) result.now ≡ map message_text self.now.messages }
        ensures read { messages_in (map (λ t. t.items) result.now) ≡ self.now.messages }
    {
        self.texts.as_slice()
    }

    /// The text of the message of a number, which is read as it. The first has the number 1.
    pub fn text_at(&self, number: u64) -> Option<&Vec<u8>>
        ensures text { option_map (λ t. t.items) (option_copied result)
            ≡ option_map message_text (state.message_at self.now.messages number) }
        ensures again { IfSome (state.message_at self.now.messages number)
            (λ m. IsDecodedAs (message_text m) (Ok m)) }
    {
        text_of_number(self.texts.as_slice(), number)
    }

    /// Makes room for the text of one more message.
    pub fn reserve(&mut self) -> Result<(), AllocError>
        ensures room { OnOk result (self.new.has_room ≡ true) }
        ensures messages { self.new.messages ≡ self.old.messages }
    {
        self.texts.reserve(1)
    }

    /// Sends the text of a message, if there is one, and tells its number.
    pub fn send(&mut self, sent: Option<Vec<u8>>) -> Option<u64>
        requires room { self.old.has_room ≡ true }
        requires text { IfSome sent (λ t. IsMessageText t.items) }
        ensures number { result ≡ settling.number_of self.old.messages
            (option_and_then message_in (option_map (λ t. t.items) sent)) }
        ensures messages { self.new.messages ≡ settling.with_sent self.old.messages
            (option_and_then message_in (option_map (λ t. t.items) sent)) }
    {
        match sent {
            None => None,
            Some(text) => Some(put(&mut self.texts, text)),
        }
    }
}
