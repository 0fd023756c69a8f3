//! The controller that a keeper holds, and what the file of a path holds.

ghost use Rattle.std.specs.Prelude.{◌≡◌, true, IfOk, IfErr};
ghost use Rattle.stored_state.specs.Opened.{kept_of};
ghost use Rattle.file_commands.specs.Calls as calls;
ghost use Rattle.file_commands.specs.Calls.{IsNotOpened};
ghost use Rattle.file_commands.specs.Opening.{IsHeldBy, IsLoaded, IsNotLoaded};
ghost use Rattle.streams.specs.declared.refused.Refused.TheVariants.{LoadFailed};
ghost use Rattle.streams.specs.declared.fault.Fault.TheVariants.{Device};

use keepers::{FileKeep, Keep, Locks, SystemDisk};
use std::alloc::Global;
use stored_state::{AnyKept, Refused, Snapshot, open_any};
use streams::Fault;

/// The controller whose state a keeper holds, beside the keeper. What is refused is a fault of the
/// device.
pub fn open_keep<K: Keep>(alloc: Global, keep: K) -> Result<AnyKept<K>, Fault>
    // Proved: What `show`, `list`, an order and a message are made of is the same whatever keeps
    // the controller: it is loaded of what its keeper holds, or it is told why not; it is shown,
    // listed and noted as it is then, at the moment that is named, or that of the clock; and a
    // step's line is appended to the journal.
    // By `ok`, `refused`; `kept_shown`, `kept_list`, `moment_of`, `moment_of_picture`: `ok`,
    // `refused`; `notes_of_order`, `journal_order`, `journal_message`, `fault_of`.
    ensures ok { IfOk result (λ opened. IsLoaded K.is_honest K.held K.place keep (kept_of opened)) }
    ensures refused { IfErr result (IsNotLoaded K.is_honest K.held K.load_fails keep) }
{
    match open_any(alloc, keep) {
        Ok(opened) => Ok(opened),
        Err(refused) => Err(Fault::Device(refused)),
    }
}

/// The same, where the text of a snapshot isn't read once more.
fn opened_as_seen<K: Keep>(alloc: Global, keep: K, snapshot: Snapshot) -> Result<AnyKept<K>, Fault>
    ensures ok { IfOk result (λ opened. IsLoaded K.is_honest K.held K.place keep (kept_of opened)) }
    ensures refused { IfErr result (IsNotLoaded K.is_honest K.held K.load_fails keep) }
{
    match snapshot.open(alloc, keep) {
        Ok(opened) => Ok(opened),
        Err(refused) => Err(Fault::Device(refused)),
    }
}

/// The same, whether there is a snapshot or not.
pub(crate) fn opened_again<K: Keep>(
    alloc: Global,
    keep: K,
    seen: Option<Snapshot>,
) -> Result<AnyKept<K>, Fault>
    ensures ok { IfOk result (λ opened. IsLoaded K.is_honest K.held K.place keep (kept_of opened)) }
    ensures refused { IfErr result (IsNotLoaded K.is_honest K.held K.load_fails keep) }
{
    match seen {
        Some(snapshot) => opened_as_seen(alloc, keep, snapshot),
        None => open_keep(alloc, keep),
    }
}

/// The keeper in the file of this path, which has its lock: it waits for that.
pub(crate) fn locked_keep<'a, R: Locks>(
    rt: &'a R,
    alloc: Global,
    file: &'a str,
) -> Result<FileKeep<SystemDisk<'a, R>>, Fault>
    ensures ok { IfOk result (λ keep. keep ≡ calls.keep_in_file file.now) }
    ensures refused { IfErr result (λ fault. fault ≡ Device LoadFailed) }
{
    match FileKeep::lock(rt, alloc, file) {
        Ok(keep) => Ok(keep),
        Err(_) => Err(Fault::Device(Refused::LoadFailed)),
    }
}

/// What a keeper holds. What is refused is a fault of the device.
pub(crate) fn snapshot_in<K: Keep>(alloc: Global, mut keep: K) -> Result<Snapshot, Fault>
    ensures text { IfOk result (λ snapshot. K.is_honest keep ≡ true →
        snapshot.text ≡ K.held keep) }
    ensures controller { IfOk result
        (λ snapshot. IsHeldBy K.is_honest K.held keep snapshot.controller) }
    ensures refused { IfErr result (IsNotLoaded K.is_honest K.held K.load_fails keep) }
{
    match Snapshot::of(alloc, &mut keep) {
        Ok(snapshot) => Ok(snapshot),
        Err(refused) => Err(Fault::Device(refused)),
    }
}

/// What the file of this path holds. The file is locked while it is read, and no longer.
pub(crate) fn snapshot_of<R: Locks>(rt: &R, alloc: Global, file: &str) -> Result<Snapshot, Fault>
    ensures controller { IfOk result (λ snapshot. IsHeldBy calls.is_honest calls.file_bytes
        (calls.keep_in_file file.now) snapshot.controller) }
    ensures refused { IfErr result (IsNotOpened file.now) }
{
    match locked_keep(rt, alloc, file) {
        Ok(keep) => snapshot_in(alloc, keep),
        Err(fault) => Err(fault),
    }
}
