//! The merge of a part.

ghost use Rattle.std.specs.Prelude.{◌≡◌, true, IfOk, IfErr, OnOk, OnErr};
ghost use Rattle.ticket_rows.specs.OneRow.{rows_with_audit};
ghost use Rattle.ticket_rows.specs.Ticket.{IsValid};
ghost use Rattle.spawn.specs.Records.{IsGood, is_out};
ghost use Rattle.spawn.specs.Spawning as spawning;
ghost use Rattle.spawn.specs.declared.records.phase.Phase.TheVariants.{Merged};
ghost use Rattle.merge.specs.Put as puts;
ghost use Rattle.merge.specs.Put.{put};
ghost use Rattle.merge.specs.Shape.{Fits};

use crate::replacing::put_back;
use crate::shape::fits;
use crate::telling::tell;
use spawn::{Phase, SpawnRec};
use std::alloc::{AllocError, Global};
use ticket_tree::{Audit, Duplicate, Part, Refusal, Ticket};

/// The audit that tells of the merge of a spawn.
fn merged_audit(alloc: Global, spawn: &SpawnRec, at: u64) -> Result<Audit, AllocError>
    ensures { IfOk result (λ audit. audit ≡ puts.merged_audit spawn.now at) }
{
    let jref = spawn.node.copy(alloc)?;
    let merge_id = spawn.id.to_id(alloc)?;
    let overwritten = spawn.rw.copy(alloc)?;
    Ok(Audit::Merged {
        at,
        jref,
        merge_id,
        overwritten,
    })
}

/// Puts the audit that tells of the merge of a spawn at the parent of its node.
fn tell_of_merge(
    alloc: Global,
    ticket: &mut Ticket,
    spawn: &SpawnRec,
    at: u64,
) -> Result<(), Refusal>
    requires { IsGood ticket.old.rows spawn.now }
    ensures ok { OnOk result (ticket.new
        ≡ record ticket.old {
          rows = rows_with_audit (spawning.parent_of ticket.old.rows spawn.now.node)
              (puts.merged_audit spawn.now at) ticket.old.rows;
        }) }
    ensures err { OnErr result (ticket.new ≡ ticket.old) }
    ensures memory { IfErr result (λ e. e ≡ Refusal.Memory) }
    ensures valid { OnOk result (IsValid ticket.old.rows) }
{
    let audit = merged_audit(alloc, spawn, at)?;
    tell(alloc, ticket, spawn, audit)
}

/// Merges a part that fits, as `merge` does, without asking whether it does. Refuses `Memory`
/// alone, and then changes nothing.
pub fn merge_fitting(
    alloc: Global,
    ticket: &mut Ticket,
    spawn: &mut SpawnRec,
    part: Part,
    at: u64,
) -> Result<(), Refusal>
    // Wants: a good record, and a part that fits it.
    requires good { IsGood ticket.old.rows spawn.old }
    requires fits { Fits ticket.old spawn.old part }
    // Proved: A part that is known to fit is merged so, and memory alone is refused.
    // By `merged`, `phase`, `ticket`, `spawn`, `memory`.
    ensures merged { OnOk result (ticket.new ≡ put ticket.old spawn.old part at) }
    ensures phase { OnOk result (spawn.new ≡ record spawn.old { phase = Merged }) }
    ensures ticket { OnErr result (ticket.new ≡ ticket.old) }
    ensures spawn { OnErr result (spawn.new ≡ spawn.old) }
    ensures memory { IfErr result (λ e. e ≡ Refusal.Memory) }
{
    let (nodes, copies) = part.into_rows();
    tell_of_merge(alloc, ticket, spawn, at)?;
    put_back(ticket, nodes, copies);
    spawn.phase = Phase::Merged;
    Ok(())
}

/// Merges a part that comes back from a spawn that is out (JDF 1.5, 4.4): each of its nodes takes
/// the place of the ticket's node of its id, at that one's depth, and each of its copies that may
/// be changed the place of the resource of its id; its copies that may be read alone are let go. At
/// the parent of the spawned node a `Merged` audit tells of it (JDF 1.5, 3.11), and the record is
/// then that of a merged spawn. The record is good in the ticket.
///
/// Refuses `WrongShape` exactly where the part doesn't fit, which needs no memory, and then
/// `Memory`. A refusal changes nothing.
pub fn merge(
    alloc: Global,
    ticket: &mut Ticket,
    spawn: &mut SpawnRec,
    part: Part,
    at: u64,
) -> Result<(), Refusal>
    // Wants: a good record that is out.
    requires out { is_out spawn.old ≡ true }
    requires good { IsGood ticket.old.rows spawn.old }

    // Proved: Each row of the claim becomes the part's, an audit tells of it, and nothing else
    // changes; what is refused changes nothing.
    // By `merged`, `phase`, `ticket`, `spawn`.
    ensures merged { OnOk result (ticket.new ≡ put ticket.old spawn.old part at) }
    ensures phase { OnOk result (spawn.new ≡ record spawn.old { phase = Merged }) }
    // Proved: A part is merged just if it fits, else refused without memory.
    // By `fits`, `wrong_shape`, `memory`; `fits`.
    ensures fits { OnOk result (Fits ticket.old spawn.old part) }

    // A refusal changes nothing.
    ensures ticket { OnErr result (ticket.new ≡ ticket.old) }
    ensures spawn { OnErr result (spawn.new ≡ spawn.old) }

    // It is refused for its shape exactly where it doesn't fit.
    ensures wrong_shape { (Fits ticket.old spawn.old part → ⊥) → result ≡ Err Refusal.WrongShape }
    ensures memory { Fits ticket.old spawn.old part → IfErr result (λ e. e ≡ Refusal.Memory) }
{
    if !fits(ticket, spawn, &part) {
        drop(part);
        return Err(Refusal::WrongShape);
    }
    merge_fitting(alloc, ticket, spawn, part, at)
}
