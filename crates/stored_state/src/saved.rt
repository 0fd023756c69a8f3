ghost use Rattle.std.specs.Prelude.{◌≡◌, Ok, IfOk, length};
ghost use Rattle.json_profile.specs.ReadAs.{IsReadAs};
ghost use Rattle.stored_state.specs.AnyStep.{text_of};
ghost use Rattle.stored_state.specs.Opened.{any_state_read};
ghost use Rattle.stored_state.specs.Saved.{IsTextOf};

use crate::any_controller::AnyController;
use std::alloc::{AllocError, Global};
use std::marker::Model;

/// A controller beside the text of its state, as that was saved last (our own). Where a keeper
/// still holds the text, the controller need not be read from it again.
#[derive(Drop)]
pub struct SavedState {
    text: Vec<u8>,
    controller: AnyController,
}

impl Model for SavedState {
    ghost use Rattle.stored_state.specs.Opened.{AnyController};
    ghost use Rattle.stored_state.specs.Saved.{IsTextOf};

    ghost Value = { AnyController };

    ghost view = { λ saved. saved.controller };

    ghost invariant = { λ saved. IsTextOf saved.text.items saved.controller };
}

impl SavedState {
    /// That of a controller and the text of its state.
    pub(crate) fn with_text(text: Vec<u8>, controller: AnyController) -> SavedState
        requires { IsTextOf text.items controller }
        ensures { result ≡ controller }
    {
        SavedState { text, controller }
    }

    /// That of a controller, of whose state the text is made.
    pub(crate) fn of(alloc: Global, controller: AnyController) -> Result<SavedState, AllocError>
        ensures { IfOk result (λ saved. saved ≡ controller) }
    {
        let text = match controller.state_text(alloc) {
            Ok(text) => text,
            Err(AllocError) => {
                drop(controller);
                return Err(AllocError);
            }
        };
        Ok(SavedState { text, controller })
    }

    /// The controller.
    pub fn controller(&self) -> &AnyController
        ensures { result.now ≡ self.now }
    {
        &self.controller
    }

    /// The text of its state, which is read as it.
    pub fn text(&self) -> &[u8]
        // Proved: A controller that is kept beside the text of its state is the one that is read
        // of that text.
        // By `text`, `again`; `SavedState::controller`, `SavedState::len`.
        ensures text { result.now ≡ text_of self.now }
        ensures again { IsReadAs any_state_read result.now (Ok self.now) }
    {
        self.text.as_slice()
    }

    /// How many bytes the text has.
    pub fn len(&self) -> usize
        ensures { result ≡ length (text_of self.now) }
    {
        self.text.len()
    }

    /// The controller alone.
    pub(crate) fn into_controller(self) -> AnyController
        ensures { result ≡ self }
    {
        let SavedState { text, controller } = self;
        drop(text);
        controller
    }
}
