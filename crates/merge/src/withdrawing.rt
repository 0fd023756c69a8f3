//! The withdrawal of a spawn.

ghost use Rattle.std.specs.Prelude.{◌≡◌, ◌++◌, codes, true, IfOk, IfErr, OnOk, OnErr};
ghost use Rattle.ticket_items.specs.SpawnId.{spawn_text};
ghost use Rattle.spawn.specs.Records.{IsGood, is_out};
ghost use Rattle.spawn.specs.declared.records.phase.Phase.TheVariants.{Withdrawn};
ghost use Rattle.merge.specs.Withdrawal as withdrawals;

use crate::telling::tell;
use spawn::{Phase, SpawnRec};
use std::alloc::{AllocError, Global};
use ticket_tree::{Audit, Refusal, SpawnId, Text, Ticket};

/// What tells that a spawn was withdrawn.
fn withdrawn_text(alloc: Global, spawn: SpawnId) -> Result<Text, AllocError>
    ensures { IfOk result (λ text. text ≡ codes "Withdrawn " ++ spawn_text spawn) }
{
    let text = format!(in alloc; "Withdrawn S{}", spawn.number())?;
    Text::from_valid(alloc, text.as_str())
}

/// The audit that tells of the withdrawal of a spawn.
fn withdrawn_audit(alloc: Global, spawn: &SpawnRec, at: u64) -> Result<Audit, AllocError>
    ensures { IfOk result (λ audit. audit ≡ withdrawals.withdrawn_audit spawn.now at) }
{
    let text = withdrawn_text(alloc, spawn.id)?;
    Ok(Audit::Notification { at, text })
}

/// Withdraws a spawn that is out and whose part was not worked on: the ticket keeps what the spawn
/// claims as it stands. At the parent of the spawned node a note tells of it (JDF 1.5, 3.11; our
/// own), and the record is then that of a withdrawn spawn. The record is good in the ticket.
///
/// Refuses `Memory` alone, and then changes nothing.
pub fn withdraw(
    alloc: Global,
    ticket: &mut Ticket,
    spawn: &mut SpawnRec,
    at: u64,
) -> Result<(), Refusal>
    // Wants: a good record that is out.
    requires out { is_out spawn.old ≡ true }
    requires good { IsGood ticket.old.rows spawn.old }
    // Proved: As a spawn is withdrawn a note tells of it, and nothing else changes; memory alone
    // is refused.
    // By `withdrawn`, `phase`, `ticket`, `spawn`, `memory`.
    ensures withdrawn { OnOk result (ticket.new
        ≡ withdrawals.job_after_withdrawal ticket.old spawn.old at) }
    ensures phase { OnOk result (spawn.new ≡ record spawn.old { phase = Withdrawn }) }
    ensures ticket { OnErr result (ticket.new ≡ ticket.old) }
    ensures spawn { OnErr result (spawn.new ≡ spawn.old) }
    ensures memory { IfErr result (λ e. e ≡ Refusal.Memory) }
{
    let audit = withdrawn_audit(alloc, spawn, at)?;
    tell(alloc, ticket, spawn, audit)?;
    spawn.phase = Phase::Withdrawn;
    Ok(())
}
