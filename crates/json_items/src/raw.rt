ghost use Rattle.std.specs.Prelude.{◌≡◌, ◌⊎◌, None, Option, Some, IfErr, IfOk, OnOk};
ghost use Rattle.json_items.specs.Validation.{Answers, built_value};
ghost use Rattle.ticket_items.specs.declared.refusal.Refusal.{Refusal as RefusalSeen};

use crate::Form;
use json_source::Source;
use std::alloc::Global;
use ticket_items::Refusal;

/// What a whole is built of, in which more may be wrong than names and texts. Each fault is looked
/// for in all of it before the next one is.
pub trait Raw: Form {
    /// What is built of it.
    type Whole: Drop;

    /// What is wrong with it, where its names and texts are valid.
    ghost late_fault: { Self → Option RefusalSeen };

    /// What is built of it, where nothing is wrong.
    ghost made: { Self → Self.Whole };

    /// The whole. Refuses what is wrong with it, and `Memory`.
    fn build(self, alloc: Global) -> Result<Self::Whole, Refusal>
        // Proved: What else is wrong with a whole is told as it is built of what was found.
        // By `ok`, `sound`, `err`.
        ensures ok { IfOk result (λ whole. whole ≡ made self) }
        ensures sound { OnOk result (late_fault self ≡ None) }
        ensures err { IfErr result (λ e. (e ≡ Refusal.Memory) ⊎ (late_fault self ≡ Some e)) };

    /// The whole of what is found in a value. Refuses the first of `NotProfile`, `BadId`, `BadText`
    /// and what else is wrong with it; `Memory` may come before any.
    final fn read_whole<S: Source>(alloc: Global, value: &S) -> Result<Self::Whole, Refusal>
        // Proved: A whole of a value is answered, or refused for the first of `NotProfile`,
        // `BadId`, `BadText` and what else is wrong with it.
        ensures { Answers result (built_value Self.has_names Self.has_texts late_fault made
            (Self.form (S.content value.now))) }
    {
        let raw = Self::find(alloc, value)??;
        raw.build(alloc)
    }
}
