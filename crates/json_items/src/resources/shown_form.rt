//! What resources show of the spawns that copied them.

ghost use Rattle.std.specs.Prelude.{◌≡◌, ◌∷◌, [], true, IfOk};
ghost use Rattle.json_items.specs.Shown as shown;

use crate::members::found_members::find_or;
use crate::{AnyText, Form, Validation, find_pool};
use json_source::Source;
use std::alloc::{AllocError, Global};
use ticket_items::{Items, Refusal, SpawnStatus};

/// What a resource shows of the spawns that copied it (JDF 1.5, 3.8).
#[derive(Drop)]
pub struct Showing {
    /// Whether the resource may not be changed.
    pub locked: bool,
    /// The ids of the spawns.
    pub spawn_ids: Items<AnyText>,
    pub spawn_status: SpawnStatus,
}

/// This text alone.
fn one_text(alloc: Global, text: &str) -> Result<Items<AnyText>, AllocError>
    ensures { IfOk result (λ texts. texts ≡ text.now ∷ []) }
{
    let texts = vec![in alloc; AnyText::new(alloc, text)?]?;
    Ok(Items::new(texts))
}

/// Whether they are this text once, and nothing else.
fn are_only(texts: &[AnyText], text: &str) -> bool
    ensures { result ≡ shown.are_only text.now texts.now }
{
    texts.len() == 1 && texts.iter().all(|other| other.as_str() == text)
}

impl Showing {
    /// Nothing, which absent members mean too.
    pub fn nothing(alloc: Global) -> Showing
        // Proved: What a resource shows of spawns is told.
        // By `Showing::rw`, `Showing::ro`, `Showing::shows_nothing`, `Showing::is_change`,
        // `Showing::is_read`.
        ensures { result ≡ shown.nothing_shown }
    {
        Showing {
            locked: false,
            spawn_ids: Items::new(Vec::new(alloc)),
            spawn_status: SpawnStatus::NotSpawned,
        }
    }

    /// What a copy shows that may be changed, of the spawn of this text.
    pub fn rw(alloc: Global, spawn: &str) -> Result<Showing, AllocError>
        ensures { IfOk result (λ s. s ≡ shown.shown_rw spawn.now) }
    {
        Ok(Showing {
            locked: false,
            spawn_ids: one_text(alloc, spawn)?,
            spawn_status: SpawnStatus::SpawnedRW,
        })
    }

    /// What a copy shows that may be read alone, of the spawn of this text.
    pub fn ro(alloc: Global, spawn: &str) -> Result<Showing, AllocError>
        ensures { IfOk result (λ s. s ≡ shown.shown_ro spawn.now) }
    {
        Ok(Showing {
            locked: true,
            spawn_ids: one_text(alloc, spawn)?,
            spawn_status: SpawnStatus::SpawnedRO,
        })
    }

    /// Whether it is nothing.
    pub fn shows_nothing(&self) -> bool
        ensures { result ≡ shown.shows_nothing self.now }
    {
        !self.locked
            && self.spawn_ids.as_slice().is_empty()
            && matches!(self.spawn_status, SpawnStatus::NotSpawned)
    }

    /// Whether it is what a copy shows that may be changed, of the spawn of this text.
    pub fn is_change(&self, spawn: &str) -> bool
        ensures { result ≡ shown.shows_change spawn.now self.now }
    {
        !self.locked
            && are_only(self.spawn_ids.as_slice(), spawn)
            && matches!(self.spawn_status, SpawnStatus::SpawnedRW)
    }

    /// Whether it is what a copy shows that may be read alone, of the spawn of this text.
    pub fn is_read(&self, spawn: &str) -> bool
        ensures { result ≡ shown.shows_read spawn.now self.now }
    {
        self.locked
            && are_only(self.spawn_ids.as_slice(), spawn)
            && matches!(self.spawn_status, SpawnStatus::SpawnedRO)
    }
}

impl Form for Showing {
    ghost form = { shown.shown_form };

    ghost has_names = { λ _. true };

    ghost has_texts = { λ _. true };

    #[tactic(auto, unfolding(crate::specs::Shown::shown_form), using(crate::proofs::Tests::all_true))]
    fn find<S: Source>(alloc: Global, value: &S) -> Result<Validation<Showing>, Refusal> {
        Ok(Ok(Showing {
            locked: find_or(alloc, value, "Locked", false)??,
            spawn_ids: find_pool(alloc, value, "SpawnIDs")??,
            spawn_status: find_or(alloc, value, "SpawnStatus", SpawnStatus::NotSpawned)??,
        }))
    }
}
