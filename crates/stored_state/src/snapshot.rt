ghost use Rattle.std.specs.Prelude.{◌≡◌, ◌≤◌, Ok, true, false, IfOk, IfErr, IsErrOf};
ghost use Rattle.json_profile.specs.ReadAs.{IsReadAs, IsRefusalOf};
ghost use Rattle.streams.specs.declared.refused.Refused.TheVariants.{LoadFailed};
ghost use Rattle.keepers.specs.Keeper.{CountRose};
ghost use Rattle.stored_state.specs.Held.{HoldsSame, IsNotLoaded};
ghost use Rattle.stored_state.specs.Opened.{any_state_read, controller_in, is_stale_in, keep_in};

use crate::any_controller::{AnyController, controller_of};
use crate::any_kept::AnyKept;
use crate::storing::load_bytes;
use keepers::Keep;
use std::alloc::Global;
use std::marker::Model;
use streams::Refused;
use ticket_tree::Refusal;

/// What a keeper held at a moment: the text of a state, and the controller whose state it is (our
/// own). It keeps nobody from the keeper.
#[derive(Drop)]
pub struct Snapshot {
    text: Vec<u8>,
    controller: AnyController,
}

impl Model for Snapshot {
    ghost use Rattle.std.specs.Prelude.{◌≡◌, Ok};
    ghost use Rattle.json_profile.specs.ReadAs.{IsReadAs};
    ghost use Rattle.stored_state.specs.Opened.{any_state_read};
    ghost use Rattle.stored_state.specs.Snapshot.{HeldText};

    ghost Value = { HeldText };

    ghost view = { λ snapshot. record {
      text = snapshot.text.items;
      controller = snapshot.controller;
    } };

    ghost invariant = { λ snapshot.
        IsReadAs any_state_read snapshot.text.items (Ok snapshot.controller) };
}

impl Snapshot {
    /// That of what a keeper holds, which it holds on. Refuses as `open_any` does.
    pub fn of<K: Keep>(alloc: Global, keep: &mut K) -> Result<Snapshot, Refused>
        // Proved: What a keeper held at a moment is its text and the controller that it is read
        // as.
        // By `text`, `again`, `held`, `honest`, `refused`, `failures`, `counted`, `fails`.
        ensures text { IfOk result (λ snapshot. K.is_honest keep.old ≡ true →
            snapshot.text ≡ K.held keep.old) }
        ensures again { IfOk result (λ snapshot.
            IsReadAs any_state_read snapshot.text (Ok snapshot.controller)) }
        ensures held { HoldsSame K.is_honest K.held keep.old keep.new }
        ensures honest { K.is_honest keep.new ≡ K.is_honest keep.old }
        ensures place { K.place keep.new ≡ K.place keep.old }
        ensures counted { K.count keep.old ≤ K.count keep.new }
        ensures refused { IfErr result
            (IsNotLoaded any_state_read (K.is_honest keep.old) (K.held keep.old)) }
        ensures fails { IsErrOf result LoadFailed → K.load_fails keep.old keep.new }
        ensures failures { IsErrOf result LoadFailed →
            CountRose (K.count keep.old) (K.count keep.new) }
    {
        let text = load_bytes(keep)?;
        match controller_of(alloc, text.as_slice()) {
            Ok(controller) => Ok(Snapshot { text, controller }),
            Err(refusal) => Err(Refused::Core(refusal)),
        }
    }

    /// The controller.
    pub fn controller(&self) -> &AnyController
        ensures { result.now ≡ self.now.controller }
    {
        &self.controller
    }

    /// The controller that bytes are the state of: its own where they are its text, and then they
    /// aren't read.
    fn controller_in(self, alloc: Global, bytes: &[u8]) -> Result<AnyController, Refusal>
        ensures ok { IfOk result (λ controller.
            IsReadAs any_state_read bytes.now (Ok controller)) }
        ensures refused { IfErr result (IsRefusalOf any_state_read bytes.now) }
    {
        if self.text.as_slice() == bytes {
            return Ok(self.controller);
        }
        drop(self);
        controller_of(alloc, bytes)
    }

    /// The controller whose state a keeper holds now, beside the keeper, which holds it on: as
    /// `open_any`, but that a text that is the same still isn't read once more. Refuses as that
    /// does.
    pub fn open<K: Keep>(self, alloc: Global, mut keep: K) -> Result<AnyKept<K>, Refused>
        // Proved: With what a keeper held at a moment it is opened as by `open_any`.
        // By `controller`, `held`, `honest`, `fresh`, `refused`, `failures`;
        // `Snapshot::controller`.
        // Not proved: that a text which is the same still isn't read once more.
        ensures controller { IfOk result (λ opened. K.is_honest keep ≡ true →
            IsReadAs any_state_read (K.held keep) (Ok (controller_in opened))) }
        ensures held { IfOk result
            (λ opened. HoldsSame K.is_honest K.held keep (keep_in opened)) }
        ensures honest { IfOk result
            (λ opened. K.is_honest (keep_in opened) ≡ K.is_honest keep) }
        ensures place { IfOk result
            (λ opened. K.place (keep_in opened) ≡ K.place keep) }
        ensures fresh { IfOk result (λ opened. is_stale_in opened ≡ false) }
        ensures refused { IfErr result
            (IsNotLoaded any_state_read (K.is_honest keep) (K.held keep)) }
        ensures failures { IsErrOf result LoadFailed → (after : K)
            × K.load_fails keep after × CountRose (K.count keep) (K.count after) }
    {
        let bytes = match load_bytes(&mut keep) {
            Ok(bytes) => bytes,
            Err(refused) => {
                drop(self);
                return Err(refused);
            }
        };
        match self.controller_in(alloc, bytes.as_slice()) {
            Ok(controller) => Ok(controller.beside(keep)),
            Err(refusal) => Err(Refused::Core(refusal)),
        }
    }
}
