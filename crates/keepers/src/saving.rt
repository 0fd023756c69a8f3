//! A file saved as a whole, so that a crash at any moment leaves the old one or the new.

ghost use Rattle.std.specs.Prelude.{◌≡◌, ◌≤◌, true, None, IfErr, OnOk};
ghost use Rattle.keepers.specs.Crash.{LeavesOnly};
ghost use Rattle.keepers.specs.Disk.{HasCause, KeepsFile, Reads};
ghost use Rattle.keepers.specs.Saved.{Drafts, IsEmptyDraft, IsOldOrNew, SavesFile};

use crate::disk::Disk;
use crate::keep_fault::KeepFault;

/// The bytes of the file. A crash meanwhile leaves what it might have left before. Refuses
/// `Failed`, as where there is no file; and `Memory`.
pub fn load<D: Disk>(disk: &mut D) -> Result<Vec<u8>, KeepFault>
    // Proved: What is read is the file, which stays as it was.
    // By `reads`, `any_moment`, `place`.
    ensures reads { D.is_honest ≡ true → Reads (D.view disk.old) (D.view disk.new) result }
    ensures any_moment { D.is_honest ≡ true →
        LeavesOnly D.moment D.left_since disk.old disk.new (D.view disk.old).may_leave }
    ensures place { D.place disk.new ≡ D.place disk.old }
    ensures cause { HasCause (D.faults disk.old) (D.faults disk.new) result }
{
    disk.read()
}

/// Puts a file of these bytes in the place of the one that is there: a draft is written and synced,
/// takes the file's name, and the folder is synced. From then on each crash leaves these bytes. A
/// crash at any moment of the save leaves what one before it might have left, or these bytes,
/// whole. Refuses `Failed`, and then removes the draft, as far as the disk lets it.
pub fn save<D: Disk>(disk: &mut D, bytes: &[u8]) -> Result<(), KeepFault>
    // Proved: A file is saved on a disk that is honest: behind a save that succeeds it has the new
    // bytes, and each crash leaves them; one that fails leaves the old to be seen, or the new; and
    // a crash at any moment leaves what one before it might have left, or the new, whole.
    // By `saves`, `any_moment`; `save_first`: `saves`, `any_moment`.
    // Not proved: how a save comes to what it leaves: a draft is written and synced, takes the
    // file's name, and the folder is synced.
    ensures saves { D.is_honest ≡ true →
        SavesFile (D.view disk.old) bytes.now (D.view disk.new) result }
    ensures any_moment { D.is_honest ≡ true → LeavesOnly D.moment D.left_since disk.old disk.new
        (IsOldOrNew (D.view disk.old).may_leave bytes.now) }
    // Proved: A failure is one that the disk counts, and a save has no other refusal; the place
    // stays.
    // By `cause`, `only`, `place`; `save_first`: `cause`, `only`, `place`; `saving::load`:
    // `cause`.
    ensures place { D.place disk.new ≡ D.place disk.old }
    ensures only { IfErr result (λ fault. fault ≡ KeepFault.Failed) }
    ensures cause { HasCause (D.faults disk.old) (D.faults disk.new) result }
{
    prepare(disk, bytes)?;
    let renamed = disk.rename();
    clear_after(disk, renamed)?;
    disk.sync_folder()
}

/// Makes the file, of these bytes, as `save` does: but the draft takes the file's name only where
/// nothing has that. Refuses `Failed`, as where something has.
pub fn save_first<D: Disk>(disk: &mut D, bytes: &[u8]) -> Result<(), KeepFault>
    ensures saves { D.is_honest ≡ true →
        SavesFile (D.view disk.old) bytes.now (D.view disk.new) result }
    // Proved: The first save succeeds only where no file was there.
    ensures none { D.is_honest ≡ true → OnOk result ((D.view disk.old).file ≡ None) }
    ensures any_moment { D.is_honest ≡ true → LeavesOnly D.moment D.left_since disk.old disk.new
        (IsOldOrNew (D.view disk.old).may_leave bytes.now) }
    ensures place { D.place disk.new ≡ D.place disk.old }
    ensures only { IfErr result (λ fault. fault ≡ KeepFault.Failed) }
    ensures cause { HasCause (D.faults disk.old) (D.faults disk.new) result }
{
    prepare(disk, bytes)?;
    let linked = disk.link();
    let _ = disk.clear();
    linked?;
    disk.sync_folder()
}

/// Makes a draft of these bytes, and waits until it is on the disk. What has its name, as a draft
/// that an earlier save left, is removed first.
fn prepare<D: Disk>(disk: &mut D, bytes: &[u8]) -> Result<(), KeepFault>
    ensures drafts { D.is_honest ≡ true →
        Drafts (D.view disk.old) bytes.now (D.view disk.new) result }
    ensures any_moment { D.is_honest ≡ true →
        LeavesOnly D.moment D.left_since disk.old disk.new (D.view disk.old).may_leave }
    ensures place { D.place disk.new ≡ D.place disk.old }
    ensures only { IfErr result (λ fault. fault ≡ KeepFault.Failed) }
    ensures cause { HasCause (D.faults disk.old) (D.faults disk.new) result }
{
    disk.clear()?;
    disk.make()?;
    let written = write_synced(disk, bytes);
    clear_after(disk, written)
}

/// Writes bytes to a draft that has none, and waits until they are on the disk.
fn write_synced<D: Disk>(disk: &mut D, bytes: &[u8]) -> Result<(), KeepFault>
    requires { D.is_honest ≡ true → IsEmptyDraft (D.view disk.old) }
    ensures drafts { D.is_honest ≡ true →
        Drafts (D.view disk.old) bytes.now (D.view disk.new) result }
    ensures any_moment { D.is_honest ≡ true →
        LeavesOnly D.moment D.left_since disk.old disk.new (D.view disk.old).may_leave }
    ensures place { D.place disk.new ≡ D.place disk.old }
    ensures only { IfErr result (λ fault. fault ≡ KeepFault.Failed) }
    ensures cause { HasCause (D.faults disk.old) (D.faults disk.new) result }
{
    disk.write(bytes)?;
    disk.sync()
}

/// What a call answered. Where it failed, the draft is removed, as far as the disk lets it.
fn clear_after<D: Disk>(disk: &mut D, answer: Result<(), KeepFault>) -> Result<(), KeepFault>
    ensures answer { result ≡ answer }
    ensures ok { OnOk answer (disk.new ≡ disk.old) }
    ensures file { D.is_honest ≡ true → KeepsFile (D.view disk.old) (D.view disk.new) }
    ensures any_moment { D.is_honest ≡ true →
        LeavesOnly D.moment D.left_since disk.old disk.new (D.view disk.old).may_leave }
    ensures place { D.place disk.new ≡ D.place disk.old }
    ensures kept { D.faults disk.old ≤ D.faults disk.new }
{
    if answer.is_err() {
        let _ = disk.clear();
    }
    answer
}
