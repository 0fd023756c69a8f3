//! Controllers that are kept in memory, by the paths of their files.

ghost use Rattle.std.specs.Prelude.{◌≡◌, [], None, IfOk};
ghost use Rattle.rounds.specs.Kept.{IsFront, Keeps, controller_of_path, other_paths};

use lru::LruCache;
use std::alloc::{AllocError, Global};
use std::marker::Model;
use stored_state::SavedState;

/// Controllers that are kept in memory, by the paths of their files, up to a number of bytes of
/// their texts in all. Those that weren't used for the longest time go first.
#[derive(Drop)]
pub struct SavedStates {
    of_path: LruCache<String, SavedState>,
    size: usize,
    most: usize,
}

impl Model for SavedStates {
    ghost use Rattle.std.specs.Prelude.{List, String};
    ghost use Rattle.std.specs.declared.alloc.Global.{Global};
    ghost use Rattle.stored_state.specs.declared.any_controller.AnyController.{AnyController};
    ghost use Rattle.rounds.specs.Kept.{IsUnique};

    ghost Value = { List (String Global × AnyController) };

    ghost view = { λ s. s.of_path.entries };

    ghost invariant = { λ s. IsUnique s.of_path.entries };
}

impl SavedStates {
    /// None, of so many bytes at most.
    pub fn new(alloc: Global, most: usize) -> Result<SavedStates, AllocError>
        ensures { IfOk result (λ kept. kept ≡ []) }
    {
        Ok(SavedStates {
            of_path: LruCache::unbounded(alloc)?,
            size: 0,
            most,
        })
    }

    /// Takes out that of a path.
    pub fn take(&mut self, path: &str) -> Option<SavedState>
        ensures value { result ≡ controller_of_path path.now self.old }
        ensures others { self.new ≡ other_paths path.now self.old }
        ensures gone { controller_of_path path.now self.new ≡ None }
    {
        let saved = self.of_path.pop(path)?;
        self.size = self.size.saturating_sub(saved.len());
        Some(saved)
    }

    /// Keeps that of a path, as far as there is room.
    pub fn keep(&mut self, path: String, saved: SavedState) -> Result<(), AllocError>
        // Proved: A controller is kept in memory for one path, once, before the others, of which
        // the last may go; or it isn't kept, and the others stay. What is taken out is what was
        // kept for the path.
        // By `SavedStates::take`: `value`, `others`, `gone`; `SavedStates::new`.
        ensures { Keeps path saved self.old self.new }
    {
        drop(self.take(path.as_str()));
        let len = saved.len();
        if len > self.most {
            return Ok(());
        }
        self.of_path.put(path, saved)?;
        self.size = self.size.saturating_add(len);
        self.make_room();
        Ok(())
    }

    /// Lets go of the oldest until what is left has room.
    fn make_room(&mut self)
        ensures { IsFront self.new self.old }
    {
        for _ in 0..self.of_path.len() {
            if self.size <= self.most {
                return;
            }
            if let Some((_, saved)) = self.of_path.pop_lru() {
                self.size = self.size.saturating_sub(saved.len());
            }
        }
    }
}
