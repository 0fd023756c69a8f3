ghost use Rattle.std.specs.Prelude.{◌≡◌, true, IfOk, OnOk};

use std::fs::{File, TryLockError};
use std::io;
use std::rt::{Files, HostRuntime};

/// Files that one program at a time may lock (our own). The lock of a file is given up where the
/// file is closed, also as its program ends.
pub trait Locks: Files {
    /// The lock of this open file was taken, by one of these calls.
    ghost was_locked: { Self.File → Type 0 };

    /// Takes the lock of the file, and waits while another open of it has that.
    fn lock(&self, file: &Self::File) -> io::Result<()>
        // Proved: A lock that was taken tells so of its file.
        // By `Locks::try_lock`.
        ensures { OnOk result (was_locked file.now) };

    /// Takes the lock of the file, unless another open of it has that. Answers whether it took it.
    fn try_lock(&self, file: &Self::File) -> io::Result<bool>
        ensures { IfOk result (λ took. took ≡ true → was_locked file.now) };
}

impl Locks for HostRuntime {
    ghost use Rattle.std.specs.Prelude.{⊤};

    ghost was_locked = { λ _. ⊤ };

    fn lock(&self, file: &File) -> io::Result<()> {
        file.lock()
    }

    fn try_lock(&self, file: &File) -> io::Result<bool> {
        match file.try_lock() {
            Ok(()) => Ok(true),
            Err(TryLockError::WouldBlock) => Ok(false),
            Err(TryLockError::Error(error)) => Err(error),
        }
    }
}
