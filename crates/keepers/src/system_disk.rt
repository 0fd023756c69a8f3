use crate::disk::Disk;
use crate::draft_file::{make_beside, open_folder, permissions_of, remove_left};
use crate::draft_path::DraftPath;
use crate::files::{read_file, write_whole};
use crate::keep_fault::KeepFault;
use crate::locks::Locks;
use std::alloc::Global;
use std::fs::{self, OpenFile, Permissions};
use std::io::{self, ErrorKind};
use std::marker::Model;

/// A file on the system's disk (our own). Nothing is promised of it, since others may write it too,
/// and since no contract can tell what a disk does; but a call fails only where an error of the
/// system was counted, or a want of memory. The draft has `.new` behind the file's name. Its lock
/// is held until it is given the file's name or removed, and then as the file's lock: so a file
/// that was locked, or made, stays locked over each save.
#[derive(Drop)]
pub struct SystemDisk<'a, R: Locks> {
    rt: &'a R,
    alloc: Global,
    path: &'a str,
    lock: Option<R::File>,
    draft: Option<R::File>,
    folder: Option<R::File>,
    /// Whether it waits for the locks of others.
    waits: bool,
    failures: u64,
}

impl<'a, R: Locks> Model for SystemDisk<'a, R> {
    ghost use Rattle.keepers.specs.OnDisk.{OnDisk};

    ghost Value = { OnDisk };

    ghost view = { λ disk. record { path = disk.path.now; count = disk.failures } };
}

impl<'a, R: Locks> SystemDisk<'a, R> {
    ghost use Rattle.std.specs.Prelude.{◌≡◌, ◌≤◌, IfErr, IsErrOf};
    ghost use Rattle.keepers.specs.Disk.{HasCause};
    ghost use Rattle.keepers.specs.Keeper.{CountRose};

    /// The file of this path, which is there, and was opened and locked.
    pub(crate) fn from_locked(
        rt: &'a R,
        alloc: Global,
        path: &'a str,
        file: R::File,
        waits: bool,
    ) -> Self
        // Wants: an open file whose lock was taken by `Locks::lock` or `try_lock`, of any files
        // that tell which of them were locked.
        requires { R.was_locked file }
        // Not proved: that the path leads to the file that is locked, and that the lock is held
        // until the keeper is let go: it is only tested.
        ensures { result ≡ record { path = path.now; count = 0 } }
    {
        SystemDisk {
            rt,
            alloc,
            path,
            lock: Some(file),
            draft: None,
            folder: None,
            waits,
            failures: 0,
        }
    }

    /// The file of this path, which isn't there yet.
    pub(crate) fn from_path(rt: &'a R, alloc: Global, path: &'a str) -> Self
        ensures { result ≡ record { path = path.now; count = 0 } }
    {
        SystemDisk {
            rt,
            alloc,
            path,
            lock: None,
            draft: None,
            folder: None,
            waits: true,
            failures: 0,
        }
    }

    /// Whether something is there under the path.
    pub(crate) fn exists(&self) -> bool {
        fs::symlink_metadata(self.rt, self.path).is_ok()
    }

    /// The path of the draft.
    fn draft_path(&self) -> io::Result<DraftPath> {
        DraftPath::beside(self.path)
    }

    /// The permissions of the file; none where it isn't made yet. Refuses a file that may not be
    /// written, what is no file, and what is there where a file is to be made.
    fn permissions(&self) -> io::Result<Option<Permissions>> {
        if self.lock.is_some() {
            return Ok(Some(permissions_of(self.rt, self.path)?));
        }
        if self.exists() {
            return Err(ErrorKind::AlreadyExists.into());
        }
        Ok(None)
    }

    /// Removes what has the draft's name: at once if it is this one's draft, else once nobody has
    /// its lock.
    fn remove_draft(&mut self) -> io::Result<()>
        ensures { self.new ≡ self.old }
    {
        let draft_path = self.draft_path()?;
        if self.draft.is_none() {
            return remove_left(self.rt, self.path, draft_path.as_str(), self.waits);
        }
        self.draft = None;
        match fs::remove_file(self.rt, draft_path.as_str()) {
            Err(error) if error.kind() == ErrorKind::NotFound => Ok(()),
            answer => answer,
        }
    }

    /// Makes the draft, with the permissions of the file.
    fn make_draft(&mut self) -> io::Result<()>
        ensures { self.new ≡ self.old }
    {
        let permissions = self.permissions()?;
        let draft_path = self.draft_path()?;
        self.folder = Some(open_folder(self.rt, self.path)?);
        self.draft = Some(make_beside(
            self.rt,
            self.path,
            draft_path.as_str(),
            permissions,
            self.waits,
        )?);
        Ok(())
    }

    /// Writes to the draft.
    fn write_draft(&mut self, bytes: &[u8]) -> Result<(), KeepFault>
        ensures { self.new ≡ self.old }
    {
        match &mut self.draft {
            Some(draft) => write_whole(draft, bytes),
            None => Err(KeepFault::Failed),
        }
    }

    /// Gives the draft the file's name, in place of its own or beside it. Its lock is the file's
    /// then.
    fn place_draft(&mut self, replaces: bool) -> io::Result<()>
        ensures { self.new ≡ self.old }
    {
        let draft_path = self.draft_path()?;
        if self.draft.is_none() {
            return Err(ErrorKind::NotFound.into());
        }
        if replaces {
            fs::rename(self.rt, draft_path.as_str(), self.path)?;
        } else {
            fs::hard_link(self.rt, draft_path.as_str(), self.path)?;
        }
        self.lock = self.draft.take();
        Ok(())
    }

    /// Counts a call that failed, and is its fault.
    fn fail(&mut self) -> KeepFault
        ensures fault { result ≡ KeepFault.Failed }
        ensures path { self.new.path ≡ self.old.path }
        ensures kept { self.old.count ≤ self.new.count }
        ensures raised { CountRose self.old.count self.new.count }
    {
        self.failures = self.failures.saturating_add(1);
        KeepFault::Failed
    }

    /// What a call answers, which is counted if it failed.
    fn count_failure(&mut self, answer: io::Result<()>) -> Result<(), KeepFault>
        ensures path { self.new.path ≡ self.old.path }
        ensures only { IfErr result (λ fault. fault ≡ KeepFault.Failed) }
        ensures cause { HasCause self.old.count self.new.count result }
    {
        match answer {
            Ok(()) => Ok(()),
            Err(_) => Err(self.fail()),
        }
    }
}

/// Waits until a file is on the disk, where there is one.
fn sync_file<F: OpenFile>(file: &Option<F>) -> io::Result<()> {
    match file {
        Some(file) => file.sync_all(),
        None => Err(ErrorKind::NotFound.into()),
    }
}

impl<'a, R: Locks> Disk for SystemDisk<'a, R> {
    ghost use Rattle.std.specs.Prelude.{false};
    ghost use Rattle.keepers.specs.OnDisk.{no_view};

    // Not proved: that the system's disk does what `Disk` says of one that is honest: it is only
    // tested.
    ghost is_honest = { false };

    ghost place = { λ disk. disk.path };

    ghost view = { λ _. no_view };

    ghost moment = { λ _. 0 };

    ghost left_since = { λ _ _ _. ⊥ };

    ghost faults = { λ disk. disk.count };

    ghost counts_now = { λ _ _ _ _ now. now };

    ghost only_now = { λ _ _ now. now };

    fn read(&mut self) -> Result<Vec<u8>, KeepFault> {
        match read_file(self.rt, self.alloc, self.path) {
            Err(KeepFault::Failed) => Err(self.fail()),
            answer => answer,
        }
    }

    fn clear(&mut self) -> Result<(), KeepFault> {
        let answer = self.remove_draft();
        self.count_failure(answer)
    }

    fn make(&mut self) -> Result<(), KeepFault> {
        let answer = self.make_draft();
        self.count_failure(answer)
    }

    fn write(&mut self, bytes: &[u8]) -> Result<(), KeepFault> {
        match self.write_draft(bytes) {
            Ok(()) => Ok(()),
            Err(_) => Err(self.fail()),
        }
    }

    fn sync(&mut self) -> Result<(), KeepFault> {
        let answer = sync_file(&self.draft);
        self.count_failure(answer)
    }

    fn rename(&mut self) -> Result<(), KeepFault> {
        let answer = self.place_draft(true);
        self.count_failure(answer)
    }

    fn link(&mut self) -> Result<(), KeepFault> {
        let answer = self.place_draft(false);
        self.count_failure(answer)
    }

    fn sync_folder(&mut self) -> Result<(), KeepFault> {
        let answer = sync_file(&self.folder);
        self.count_failure(answer)
    }

    fn failures(&self) -> u64 {
        self.failures
    }
}
