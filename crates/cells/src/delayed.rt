use std::marker::Model;

/// A swap that was sent and hasn't come yet (our own).
#[derive(Drop)]
pub(crate) struct DelayedSwap {
    over: u64,
    bytes: Option<Vec<u8>>,
}

impl Model for DelayedSwap {
    ghost use Rattle.std.specs.Prelude.{option_map};
    ghost use Rattle.cells.specs.Chain.{Swap};

    ghost Value = { Swap };

    ghost view = { λ a. record { over = a.over; bytes = option_map (λ b. b.items) a.bytes } };
}

impl DelayedSwap {
    ghost use Rattle.std.specs.Prelude.{◌≡◌, option_map};

    /// A swap over this revision.
    pub(crate) fn new(over: u64, bytes: Option<Vec<u8>>) -> DelayedSwap
        ensures { result ≡ record { over = over; bytes = option_map (λ b. b.items) bytes } }
    {
        DelayedSwap { over, bytes }
    }

    /// What it asks.
    pub(crate) fn into_parts(self) -> (u64, Option<Vec<u8>>)
        ensures over { result.0 ≡ self.over }
        ensures bytes { option_map (λ b. b.items) result.1 ≡ self.bytes }
    {
        (self.over, self.bytes)
    }
}
