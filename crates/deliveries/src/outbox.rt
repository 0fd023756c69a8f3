ghost use Rattle.std.specs.Prelude.{◌≡◌, ◌==◌, ℕ, [], Some, OnOk, OnErr};
ghost use Rattle.std.specs.Prelude.{if◌then◌else◌};
ghost use Rattle.deliveries.specs.Outbox.{progress_after, progress_in};

use crate::progress::Progress;
use indexmap::IndexMap;
use std::alloc::{AllocError, Global};
use std::marker::Model;
use ticket_items::SpawnId;

/// What one controller has out: each spawn once, with its progress. One is found without a walk.
#[derive(Drop)]
pub(crate) struct Outbox {
    spawns: IndexMap<SpawnId, Progress>,
}

impl Model for Outbox {
    ghost use Rattle.deliveries.specs.Outbox.{Outbox};

    ghost Value = { Outbox };

    ghost view = { λ a. a.spawns.entries };
}

impl Outbox {
    /// Nothing is out.
    pub(crate) fn new(alloc: Global) -> Outbox
        ensures { result ≡ [] }
    {
        Outbox {
            spawns: IndexMap::new(alloc),
        }
    }

    /// The progress of a spawn, if it is out.
    pub(crate) fn get(&self, spawn: SpawnId) -> Option<Progress>
        ensures { result ≡ progress_in self.now spawn }
    {
        self.spawns.get(&spawn).copied()
    }

    /// A spawn is out, with this progress.
    pub(crate) fn insert(&mut self, spawn: SpawnId, progress: Progress) -> Result<(), AllocError>
        ensures ok { OnOk result ((s : ℕ) → progress_in self.new s
            ≡ if spawn == s then Some progress else progress_in self.old s) }
        ensures err { OnErr result (self.new ≡ self.old) }
    {
        self.spawns.insert(spawn, progress)?;
        Ok(())
    }

    /// Changes the progress of a spawn, if it is out. With `None` it is out no longer.
    pub(crate) fn mark(&mut self, spawn: SpawnId, to: Option<Progress>)
        ensures { (s : ℕ) → progress_in self.new s ≡ progress_after self.old spawn to s }
    {
        match to {
            None => {
                let _was = self.spawns.swap_remove(&spawn);
            }
            Some(progress) => {
                if let Some(had) = self.spawns.get_mut(&spawn) {
                    *had = progress;
                }
            }
        }
    }
}
