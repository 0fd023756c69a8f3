ghost use Rattle.std.specs.Prelude.{◌≡◌, ◌≤◌, Bool, Result, Ok, false, true, IfOk, OnOk};
ghost use Rattle.serde_json.specs.Data.{Data, depth};
ghost use Rattle.serde_json.specs.Read.{max_depth};
ghost use Rattle.serde_json.specs.View.{view};
ghost use Rattle.serde_json.specs.Written.{compact_text, has_float};
ghost use Rattle.ticket_items.specs.declared.refusal.Refusal.{Refusal as RefusalSeen};
ghost use Rattle.json_items.specs.Validation.{Answers};
ghost use Rattle.json_profile.specs.ReadAs.{IsReadAs};
ghost use Rattle.json_text.specs.Printed.{IsPrinted};

use json::Writer;
use json_profile::value_printed;
use json_source::Source;
use json_text::written_text;
use serde_json::Value;
use std::alloc::{AllocError, Global};
use ticket_tree::Refusal;

/// How many bytes a text has room for in the beginning.
const ROOM: usize = 1024;

/// A controller whose state is written as JSON, and read again as it was (our own).
pub trait StateForm: Drop {
    /// The state as JSON data.
    ghost state_data: { Self → Data };

    /// What the first format tells of it.
    ghost first_data: { Self → Data };

    /// Whether the first format can tell it.
    ghost has_first: { Self → Bool };

    /// What JSON data is read as: a controller, or the first refusal.
    ghost state_read: { Data → Result Self RefusalSeen };

    /// Prints its state, which is read as this controller; as what the first format tells of it is,
    /// where that can tell it.
    fn print_state(&self, alloc: Global, out: &mut Writer) -> Result<(), AllocError>
        ensures printed { OnOk result (IsPrinted (state_data self.now) out.old out.new) }
        ensures again { OnOk result (state_read (state_data self.now) ≡ Ok self.now) }
        ensures first { OnOk result (has_first self.now ≡ true →
            state_read (first_data self.now) ≡ Ok self.now) }
        ensures plain { OnOk result (has_float (state_data self.now) ≡ false) }
        ensures nests { OnOk result (depth (state_data self.now) ≤ max_depth) };

    /// The controller whose state a value is. Refuses `NotProfile` where no whole number stands
    /// under `Format`, and `BadState` where another than 1 and 2 does; then the first of
    /// `NotProfile`, `BadId` (also where an `ID` names no spawn), `BadText`, `ReservedStatus`,
    /// `DuplicateId`, `TooDeep`, `UnresolvedLink` and `BadState` that stands in it (our own: what
    /// `of_parts` refuses), each looked for in all of it before the next one is; `Memory` may come
    /// before any but the first two.
    fn state_of<S: Source>(alloc: Global, value: &S) -> Result<Self, Refusal>
        // Proved: A state of either format is read as its form says, its format first, or refused
        // for its first fault.
        ensures { Answers result (state_read (S.content value.now)) };

    /// The text of its state, which is read as this controller.
    final fn state_text(&self, alloc: Global) -> Result<Vec<u8>, AllocError>
        // Proved: The text of a stored state is read again as the same controller.
        // By `text`, `again`.
        ensures text { IfOk result (λ b. b.items ≡ compact_text (state_data self.now)) }
        ensures again { IfOk result (λ b. IsReadAs state_read b.items (Ok self.now)) }
    {
        let mut out = Writer::new(Vec::with_capacity(alloc, ROOM)?);
        self.print_state(alloc, &mut out)?;
        Ok(written_text(out))
    }

    /// Its state as a value, which is read as this controller; as what the first format tells of it
    /// is, where that can tell it.
    final fn state_value(&self, alloc: Global) -> Result<Value, AllocError>
        ensures value { IfOk result (λ v. view v ≡ state_data self.now) }
        // Proved: A stored state is read again as the same controller, and so is what the first
        // format tells of it, where that can tell it: as a value and token by token.
        // By `again`, `first`, `plain`, `nests`; `StateForm::print_state`: `again`, `first`,
        // `plain`, `nests`; `StateForm::state_value`: `value`; `StateForm::print_state`:
        // `printed`.
        ensures again { IfOk result (λ v. state_read (view v) ≡ Ok self.now) }
        ensures first { OnOk result (has_first self.now ≡ true →
            state_read (first_data self.now) ≡ Ok self.now) }
        ensures plain { IfOk result (λ v. has_float (view v) ≡ false) }
        ensures nests { IfOk result (λ v. depth (view v) ≤ max_depth) }
    {
        let mut out = Writer::new(Vec::new(alloc));
        self.print_state(alloc, &mut out)?;
        value_printed(alloc, out)
    }
}
