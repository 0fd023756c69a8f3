//! What is written of the ticket that a master shows.

ghost use Rattle.std.specs.Prelude.{◌≡◌, ◌++◌, IfErr, OnOk};
ghost use Rattle.controller_form.specs.ShownMaster.{master_text};
ghost use Rattle.ticket_items.specs.declared.refusal.Refusal.TheVariants.{Memory};

use json_profile::push_shown_text;
use master_core::Master;
use std::alloc::Global;
use ticket_tree::Refusal;

/// Appends the text of a master's ticket, with the marks of what is out, and the end of its line.
/// Refuses `Memory` alone.
pub fn push_shown(alloc: Global, text: &mut Vec<u8>, master: &Master) -> Result<(), Refusal>
    // Proved: What a master shows is its ticket with the marks of what is out, on a line; memory
    // alone is refused.
    // By `ok`, `memory`.
    ensures ok { OnOk result (text.new.items ≡ text.old.items ++ master_text master.now) }
    ensures memory { IfErr result (λ e. e ≡ Memory) }
{
    let marks = master.shown(alloc)?;
    push_shown_text(alloc, text, master.ticket(), &marks)?;
    text.push(b'\n')?;
    Ok(())
}
