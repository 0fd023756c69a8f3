ghost use Rattle.std.specs.Prelude.{◌≡◌, Bool, true, Some, None};
ghost use Rattle.cells.specs.Calls.{Reads, Swaps};
ghost use Rattle.cells.specs.Chain.{View};

use crate::swapped::SwapResult;
use crate::versioned::VersionedValue;
use keepers::KeepFault;

/// A value with a revision that several processes share, as a key of an engine with
/// compare-and-swap (our own). A swap whose answer is lost may be made later, in a call of anybody,
/// while the revision that it names is held. All that is promised holds for a cell that is honest;
/// no contract can tell that of an engine behind a socket. Of revision 0 is what was never held.
pub trait Cell: Drop {
    /// Whether anything is promised of it.
    ghost is_honest: { Bool };

    /// The values that it ever held, and the swaps that may be made.
    ghost view: { Self → View };

    /// The value that is held. Refuses `Failed` where no answer comes, and `Memory`.
    fn read(&mut self) -> Result<VersionedValue, KeepFault>
        // Proved: Between two calls, only swaps that were sent are made, each over the value whose
        // revision it names, of which the next is later; of an answered swap it is told whether it
        // was made.
        // By `Cell::swap`, `Cell::touch`.
        ensures { is_honest ≡ true → Reads (view self.old) (view self.new) result };

    /// Asks for these bytes in place of the value of a revision.
    fn swap(&mut self, revision: u64, bytes: &[u8]) -> SwapResult
        ensures { is_honest ≡ true → Swaps (view self.old)
            (record { over = revision; bytes = Some bytes.now }) (view self.new) result };

    /// Asks for a later revision of the value of this one. Once it is answered, no swap that names
    /// this one can be made any more.
    fn touch(&mut self, revision: u64) -> SwapResult
        ensures { is_honest ≡ true → Swaps (view self.old)
            (record { over = revision; bytes = None }) (view self.new) result };
}
