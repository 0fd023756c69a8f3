//! The texts that were sent, by their numbers.

ghost use Rattle.std.specs.Prelude.{◌≡◌, is_some, IfOk};
ghost use Rattle.std.specs.Option.{option_and_then, option_copied, option_map};
ghost use Rattle.shop_day.specs.Done as done;
ghost use Rattle.world.specs.State as state;

use keepers::Keep;
use master_core::Master;
use std::alloc::{AllocError, Global};
use stored_state::KeptSeat;
use worker_core::Worker;
use world::Seats;

/// The text of a number, of which the first has the number 1.
fn text_of_number(texts: &[Vec<u8>], number: u64) -> Option<&Vec<u8>>
    ensures { option_copied result ≡ state.message_at texts.now number }
{
    match number.checked_sub(1) {
        None => None,
        Some(place) => texts.get(place as usize),
    }
}

/// A copy of the text of a number, if there is one.
fn text_copied(alloc: Global, texts: &[Vec<u8>], number: u64) -> Result<Option<Vec<u8>>, AllocError>
    ensures { IfOk result (λ text. option_map (λ b. b.items) text
        ≡ option_map (λ t. t.items) (state.message_at texts.now number)) }
{
    match text_of_number(texts, number) {
        None => Ok(None),
        Some(text) => Ok(Some(Vec::from_slice(alloc, text.as_slice())?)),
    }
}

/// Whether a text has this number.
pub fn was_sent(texts: &[Vec<u8>], number: u64) -> bool
    ensures { result ≡ is_some (state.message_at texts.now number) }
{
    text_of_number(texts, number).is_some()
}

/// A copy of the text of the message of a number, if there is one.
pub fn text_sent<K: Keep>(
    alloc: Global,
    shop: &Seats<KeptSeat<Master, K>, KeptSeat<Worker, K>>,
    number: Option<u64>,
) -> Result<Option<Vec<u8>>, AllocError>
    ensures { IfOk result (λ text. option_map (λ b. b.items) text
        ≡ done.text_at shop.now.messages number) }
{
    match number {
        None => Ok(None),
        Some(number) => text_copied(alloc, shop.messages(), number),
    }
}
