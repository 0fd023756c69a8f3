//! What a step is made of, by its name.

ghost use Rattle.std.specs.Prelude.{◌≡◌, ◌⊎◌, string_bytes, Ok, Err, IfOk, IfErr};
ghost use Rattle.json_profile.specs.ReadAs.{IsReadAs, IsRefusalOf};
ghost use Rattle.ticket_items.specs.declared.refusal.Refusal.TheVariants.{Memory};
ghost use Rattle.journal.specs.What as whats;

use controller::{Body, Command};
use json_items::text_under;
use json_source::{Scratch, Source, tree_of};
use std::alloc::Global;
use ticket_items::Refusal;

/// The name of an answer to a command.
fn answer_word(command: Command) -> &'static str
    ensures { result.now ≡ whats.answer_word command }
{
    match command {
        Command::Submit => "ResponseSubmitQueueEntry",
        Command::Return => "ResponseReturnQueueEntry",
        Command::Abort => "ResponseAbortQueueEntry",
    }
}

/// The name of a message: of a command its Type, and of an answer `Response` and that of the
/// command.
pub fn message_word(body: &Body) -> &'static str
    // Proved: A command's name is its Type, and an answer's `Response` and that.
    ensures { result.now ≡ whats.message_word body.now }
{
    match body {
        Body::Submit(_) => Command::Submit.row().word,
        Body::Return(_) => Command::Return.row().word,
        Body::Abort(_) => Command::Abort.row().word,
        Body::Answer { of, .. } => answer_word(*of),
    }
}

/// The name that a value has as an order.
fn name_in<S: Source>(alloc: Global, value: &S) -> Result<String, Refusal>
    ensures ok { IfOk result (λ word. whats.order_named (S.content value.now)
        ≡ Ok (string_bytes word)) }
    ensures refused { IfErr result (λ e. (whats.order_named (S.content value.now) ≡ Err e)
        ⊎ (e ≡ Memory)) }
{
    let word = text_under(value, "Order").ok_or(Refusal::NotProfile)?;
    Ok(String::from_str(alloc, word)?)
}

/// The name of the order that bytes are: what stands under `Order`. Refuses the first of `NotJson`
/// and `NotProfile`, where no text stands there; `Memory` may come before either.
pub fn order_word(alloc: Global, bytes: &[u8]) -> Result<String, Refusal>
    // Proved: An order's name is what stands under `Order`; bytes of which none is read are
    // refused as what is wrong with them first, or for want of memory.
    // By `ok`, `refused`.
    ensures ok { IfOk result (λ word. IsReadAs whats.order_named bytes.now
        (Ok (string_bytes word))) }
    ensures refused { IfErr result (IsRefusalOf whats.order_named bytes.now) }
{
    let mut scratch = Scratch::new(alloc);
    let tree = tree_of(alloc, bytes, &mut scratch)?;
    name_in(alloc, &tree)
}
