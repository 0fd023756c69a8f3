ghost use Rattle.std.specs.Prelude.{◌≡◌, ◌+◌, IfSome, MatchOption, is_some, nat_le};

use rounds::{AnsweredClient, AnsweredOperator};
use std::time::{Clock, Duration, Instant};
use streams::Refused;

/// For how many milliseconds an exchange with the engine is waited for, and the engine left alone
/// where none was answered.
const ENGINE_TIME: u64 = 1_000;

/// How many of its newest revisions the engine keeps, and behind how many more it is asked to
/// forget those before.
const KEPT_REVISIONS: u64 = 1_000;

/// The engine that keeps what is served, where that isn't a file. Where it doesn't answer it is
/// left alone for a while, so that those who don't want it are served (our own).
#[derive(Clone, Copy)]
pub struct Engine {
    /// Since when it is left alone.
    left_at: Option<Instant>,
    /// The revision before which it was asked last to forget all.
    forgotten: u64,
}

impl Engine {
    /// One that wasn't asked yet.
    pub fn new() -> Engine {
        Engine {
            left_at: None,
            forgotten: 0,
        }
    }

    /// How long an exchange may take.
    pub(crate) fn limit() -> Duration {
        Duration::from_millis(ENGINE_TIME)
    }

    /// Whether it is left alone.
    pub(crate) fn is_left<R: Clock>(&self, rt: &R) -> bool {
        match time_since(rt, self.left_at) {
            Some(time) => time < Engine::limit(),
            None => false,
        }
    }

    /// Leaves it alone from now on for a while, if what was asked at a moment failed and took as
    /// long as an exchange may. What it refuses at once costs nobody time.
    pub(crate) fn note<R: Clock>(&mut self, rt: &R, asked: Option<Instant>, is_failed: bool) {
        if is_failed
            && let Some(time) = time_since(rt, asked)
            && time >= Engine::limit()
        {
            self.left_at = Instant::now(rt).ok();
        }
    }

    /// The revision before which it is to forget all, where the newest is this one, if that is far
    /// enough behind the last time.
    pub(crate) fn revision_to_forget(&mut self, newest: u64) -> Option<u64>
        // Proved: An engine is to forget what is a thousand revisions behind the newest, just where
        // the newest is two thousand or more beyond the one that it was to forget last.
        // By `revision`, `time`, `forgotten`.
        ensures revision { IfSome result (λ revision. revision + 1000 ≡ newest) }
        ensures time { is_some result ≡ nat_le (self.old.forgotten + 2000) newest }
        ensures forgotten { MatchOption result (self.new ≡ self.old)
            (λ revision. self.new ≡ record self.old { forgotten = revision }) }
    {
        let revision = newest.checked_sub(KEPT_REVISIONS)?;
        if revision < self.forgotten.saturating_add(KEPT_REVISIONS) {
            return None;
        }
        self.forgotten = revision;
        Some(revision)
    }
}

/// How long ago a moment was, where that is known.
fn time_since<R: Clock>(rt: &R, moment: Option<Instant>) -> Option<Duration> {
    match moment {
        Some(moment) => moment.elapsed(rt).ok(),
        None => None,
    }
}

/// Whether what keeps a controller failed, as what is told of a step tells.
fn is_failure(refusal: Option<Refused>) -> bool {
    match refusal {
        Some(Refused::LoadFailed | Refused::SaveFailed) => true,
        _ => false,
    }
}

/// The same as what those who sent messages are told, who all are told so where it did.
pub(crate) fn are_failed<S: Drop>(answered: &[AnsweredClient<S>]) -> bool {
    match answered.first() {
        Some(one) => is_failure(one.told.refusal),
        None => false,
    }
}

/// The same as what those who gave orders are told.
pub(crate) fn orders_are_failed<S: Drop>(told: &[AnsweredOperator<S>]) -> bool {
    match told.first() {
        Some(one) => is_failure(one.told.refusal),
        None => false,
    }
}
