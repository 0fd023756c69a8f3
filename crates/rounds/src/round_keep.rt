ghost use Rattle.std.specs.Prelude.{◌≡◌, length, IfErr, IfOk};
ghost use Rattle.stored_state.specs.TakingAll.{TakesAll, TakesNone};

use keepers::{Disk, FileKeep, Keep};
use std::alloc::Global;
use stored_state::{Addressee, Coming, SavedState, TakenBytes, take_all};
use streams::Refused;
use ticket_items::Refusal;

/// What each of those who have come is given, and the controller as it was saved, if it was.
pub type Given = (Vec<Result<TakenBytes, Refusal>>, Option<SavedState>);

/// A keeper of a controller to which all that comes in a round comes with one save (our own).
pub trait RoundKeep: Keep {
    /// Hands the controller that it holds all that comes, as `take_all` does.
    fn take_round(
        &mut self,
        alloc: Global,
        last: Option<SavedState>,
        to: Addressee<'_>,
        all: Vec<Coming>,
        at: u64,
    ) -> Result<Given, Refused>
        ensures ok { IfOk result (λ taken. TakesAll Self.Keep.is_honest Self.Keep.held to.entry at
            all.items taken.0.items taken.1 self.old self.new) }
        ensures each { IfOk result (λ taken. length taken.0.items ≡ length all.items) }
        ensures place { Self.Keep.place self.new ≡ Self.Keep.place self.old }
        ensures refused { IfErr result (TakesNone Self.Keep.is_honest Self.Keep.held Self.Keep.place
            Self.Keep.count Self.Keep.load_fails Self.Keep.save_fails to.entry at all.items
            self.old self.new) };
}

impl<D: Disk> RoundKeep for FileKeep<D> {
    fn take_round(
        &mut self,
        alloc: Global,
        last: Option<SavedState>,
        to: Addressee<'_>,
        all: Vec<Coming>,
        at: u64,
    ) -> Result<Given, Refused> {
        take_all(alloc, self, last, to, all, at)
    }
}
