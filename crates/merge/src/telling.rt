//! Telling of a spawn in its ticket.

ghost use Rattle.std.specs.Prelude.{◌≡◌, IfErr, OnErr, OnOk};
ghost use Rattle.ticket_rows.specs.OneRow.{rows_with_audit};
ghost use Rattle.ticket_rows.specs.Ticket.{IsValid};
ghost use Rattle.spawn.specs.Records.{IsGood};
ghost use Rattle.spawn.specs.Spawning as spawning;

use crate::parent::parent_of;
use spawn::SpawnRec;
use std::alloc::Global;
use ticket_tree::{Audit, Duplicate, Refusal, Ticket};

/// Puts an audit at the parent of the node of a spawn.
pub fn tell(
    alloc: Global,
    ticket: &mut Ticket,
    spawn: &SpawnRec,
    audit: Audit,
) -> Result<(), Refusal>
    requires { IsGood ticket.old.rows spawn.now }
    ensures ok { OnOk result (ticket.new
        ≡ record ticket.old {
          rows = rows_with_audit (spawning.parent_of ticket.old.rows spawn.now.node) audit
              ticket.old.rows;
        }) }
    ensures err { OnErr result (ticket.new ≡ ticket.old) }
    ensures memory { IfErr result (λ e. e ≡ Refusal.Memory) }
    ensures valid { IsValid ticket.old.rows }
{
    let Some(parent) = parent_of(ticket, &spawn.node) else {
        return Err(Refusal::UnknownNode);
    };
    let parent = parent.copy(alloc)?;
    ticket.append(alloc, &parent, audit)
}
