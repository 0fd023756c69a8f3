//! Messages that are too long to be sent.

ghost use Rattle.std.specs.Prelude.{◌≡◌, map};
ghost use Rattle.std.specs.Option.{option_copied};
ghost use Rattle.jdf_loop.specs.Losses as losses;
ghost use Rattle.stored_state.specs.Message.{message_text};
ghost use Rattle.world.specs.State as state;
ghost use Rattle.world_items.specs.declared.what.What.TheVariants.{Deliver};

use crate::shop::Shop;
use world_items::What;

/// How many bytes the text of a message that is sent may have: what lies in a connection before it
/// is read has to fit the buffers of the system.
pub const MAX_SENT_BYTES: usize = 16_384;

/// The text of a number, of which the first has the number 1.
fn text_of_number(texts: &[Vec<u8>], number: u64) -> Option<&Vec<u8>>
    ensures { option_copied result ≡ state.message_at texts.now number }
{
    match number.checked_sub(1) {
        None => None,
        Some(place) => texts.get(place as usize),
    }
}

/// Whether a text is too long to be sent.
fn is_too_long(text: &[u8]) -> bool
    ensures { result ≡ losses.is_too_long text.now }
{
    text.len() > MAX_SENT_BYTES
}

/// Whether the message of a number is too long to be sent.
fn is_message_too_long(shop: &Shop, number: u64) -> bool
    ensures { result ≡ losses.is_lost (Deliver number) shop.now }
{
    match text_of_number(shop.messages(), number) {
        None => false,
        Some(text) => is_too_long(text.as_slice()),
    }
}

/// Whether what happens in a shop is the delivery of a message that is too long to be sent.
pub fn is_lost(shop: &Shop, what: &What) -> bool
    ensures { result ≡ losses.is_lost what.now shop.now }
{
    match what {
        What::Deliver(number) => is_message_too_long(shop, *number),
        _ => false,
    }
}
