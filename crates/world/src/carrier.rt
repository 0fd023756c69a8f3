ghost use Rattle.std.specs.Prelude.{◌≡◌, Bool, true, IfErr, IsOk};
ghost use Rattle.streams.specs.declared.refused.Refused.{Refused as RefusedSeen};

use std::alloc::Global;
use stored_state::{OrderBytes, Refused};

/// What takes the text of a message to its receiver. Nothing is promised of what comes there, and
/// nothing has to be: a text counts as come only where it is the one that was sent.
pub trait Carrier: Drop {
    /// Whether every text comes.
    ghost is_direct: { Bool };

    /// What a text that doesn't come is lost for.
    ghost loses: { RefusedSeen → Type 0 };

    /// Takes the text of a message to its receiver, where just that text came. Where another came,
    /// or none, it is lost, for what this refuses.
    fn carry(&mut self, alloc: Global, text: &[u8]) -> Result<(), Refused>
        // Proved: What hands over a text itself brings each.
        // By `direct`; `Carrier::carry_back`: `direct`.
        ensures direct { is_direct ≡ true → IsOk result }
        // Proved: A text is lost for nothing but what its carrier may lose it for.
        // By `lost`; `Carrier::carry_back`: `lost`.
        ensures lost { IfErr result loses };

    /// Takes what the receiver gives out of its step back to the sender, where just that came.
    fn carry_back(&mut self, alloc: Global, given: &OrderBytes) -> Result<(), Refused>
        ensures direct { is_direct ≡ true → IsOk result }
        ensures lost { IfErr result loses };
}

/// What hands over a text itself.
#[derive(Drop)]
pub struct Direct;

impl Carrier for Direct {
    ghost is_direct = { true };

    ghost loses = { λ _. ⊥ };

    fn carry(&mut self, _alloc: Global, _text: &[u8]) -> Result<(), Refused> {
        Ok(())
    }

    fn carry_back(&mut self, _alloc: Global, _given: &OrderBytes) -> Result<(), Refused> {
        Ok(())
    }
}
