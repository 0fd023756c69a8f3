//! Lists that grow.

ghost use Rattle.std.specs.Prelude.{◌≡◌, ◌++◌, ◌∷◌, [], IfErr, OnOk};
ghost use Rattle.streams.specs.declared.refused.Refused.TheVariants.{Core};
ghost use Rattle.ticket_items.specs.declared.refusal.Refusal.TheVariants.{Memory};

use streams::Refused;
use ticket_tree::Refusal;

/// Puts an item last. Refuses `Memory` alone.
pub fn push<T: Drop>(items: &mut Vec<T>, item: T) -> Result<(), Refused>
    ensures ok { OnOk result (items.new.items ≡ items.old.items ++ item ∷ []) }
    ensures memory { IfErr result (λ e. e ≡ Core Memory) }
{
    match items.push(item) {
        Ok(()) => Ok(()),
        Err(_) => Err(Refused::Core(Refusal::Memory)),
    }
}
