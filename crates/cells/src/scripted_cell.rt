use crate::cell::Cell;
use crate::course::Course;
use crate::deed::Deed;
use crate::delayed::DelayedSwap;
use crate::swapped::SwapResult;
use crate::versioned::VersionedValue;
use keepers::KeepFault;
use std::alloc::{AllocError, Global};
use std::marker::Model;

/// A cell in memory, for tests of what stands on cells (our own). A script tells what it makes of
/// each call; once that is over, each is answered. A read whose deed gives no answer fails.
#[derive(Drop)]
pub struct ScriptedCell {
    alloc: Global,
    chain: Vec<VersionedValue>,
    delayed: Vec<DelayedSwap>,
    script: Vec<Deed>,
}

impl Model for ScriptedCell {
    ghost use Rattle.cells.specs.Scripted.{ScriptedView};

    ghost Value = { ScriptedView };

    ghost view = { λ a. record {
      chain = a.chain.items;
      delayed = a.delayed.items;
      script = a.script.items;
    } };
}

impl ScriptedCell {
    ghost use Rattle.std.specs.Prelude.{◌≡◌, ◌≢◌, ◌+◌, ◌-◌, ◌∷◌, [], true, false, Some, length};
    ghost use Rattle.std.specs.Prelude.{IfOk, OnErr, option_map};
    ghost use Rattle.cells.specs.Calls.{Goes, MayMake, Swaps};
    ghost use Rattle.cells.specs.Chain.{Grows, IsMadeBy, Makes, Version, newest};
    ghost use Rattle.cells.specs.Scripted.{TakesDeed, view_of};

    /// A cell that never held anything.
    pub fn new(alloc: Global, script: Vec<Deed>) -> ScriptedCell
        // Proved: A cell in memory begins with no value, and follows its script.
        // By `ScriptedCell::chain`.
        ensures { result ≡ record { chain = []; delayed = []; script = script.items } }
    {
        ScriptedCell {
            alloc,
            chain: Vec::new(alloc),
            delayed: Vec::new(alloc),
            script,
        }
    }

    /// The values that it ever held, the newest first.
    pub fn chain(&self) -> &[VersionedValue]
        ensures { result.now ≡ self.now.chain }
    {
        self.chain.as_slice()
    }

    /// The revision that is held.
    fn revision(&self) -> u64
        ensures { result ≡ (newest self.now.chain).revision }
    {
        match self.chain.first() {
            Some(version) => version.revision(),
            None => 0,
        }
    }

    /// A copy of what is held.
    fn copy(&self) -> Result<VersionedValue, AllocError>
        ensures { IfOk result (λ version. version ≡ newest self.now.chain) }
    {
        match self.chain.first() {
            Some(version) => version.copy(),
            None => Ok(VersionedValue::new(0, Vec::new(self.alloc))),
        }
    }

    /// Makes a swap, where the revision that it names is held. Answers whether that was so.
    fn make(&mut self, over: u64, bytes: Option<Vec<u8>>) -> Result<bool, AllocError>
        ensures made { IfOk result (λ made. made ≡ true → (v : Version)
            × (self.new ≡ record self.old { chain = v ∷ self.old.chain })
            × (v.revision ≡ over + 1)
            × Makes (record { over = over; bytes = option_map (λ b. b.items) bytes })
            (newest self.old.chain) v) }
        ensures other { IfOk result (λ made. made ≡ false →
            (self.new ≡ self.old) × (over ≢ (newest self.old.chain).revision)) }
        ensures err { OnErr result (self.new ≡ self.old) }
    {
        if self.revision() != over {
            drop(bytes);
            return Ok(false);
        }
        let Some(next) = over.checked_add(1) else {
            drop(bytes);
            return Err(AllocError);
        };
        let bytes = match bytes {
            Some(bytes) => bytes,
            None => self.copy()?.into_bytes(),
        };
        self.chain.insert(0, VersionedValue::new(next, bytes))?;
        Ok(true)
    }

    /// What the next call is made of.
    fn take_deed(&mut self) -> Deed
        ensures deed { TakesDeed self.old.script result self.new.script }
        ensures same { self.new ≡ record self.old { script = self.new.script } }
    {
        if self.script.is_empty() {
            return Deed::Answer;
        }
        self.script.remove(0)
    }

    /// What was delayed comes, the last that was sent first.
    fn land(&mut self)
        ensures goes { Goes (view_of self.old) (view_of self.new) }
    {
        while !self.delayed.is_empty() {
            self.land_last();
        }
    }

    /// The last of what was delayed comes, if there is any.
    fn land_last(&mut self)
        ensures goes { Goes (view_of self.old) (view_of self.new) }
        ensures fewer { length self.new.delayed ≡ length self.old.delayed - 1 }
    {
        let Some(delayed) = self.delayed.pop() else {
            return;
        };
        let (over, bytes) = delayed.into_parts();
        let _ = self.make(over, bytes);
    }

    /// Another's swap comes, in place of whatever is held.
    fn interrupt(&mut self, bytes: Vec<u8>)
        ensures chain { Grows (IsMadeBy (λ s. s.bytes ≡ Some bytes.items))
            self.old.chain self.new.chain }
        ensures same { self.new ≡ record self.old { chain = self.new.chain } }
    {
        let held = self.revision();
        let _ = self.make(held, Some(bytes));
    }

    /// Follows the script up to the answer. Answers whether there is one, or whether the call comes
    /// to something at least.
    fn begin(&mut self) -> Course
        ensures { Goes (view_of self.old) (view_of self.new) }
    {
        match self.take_deed() {
            Deed::Answer => Course::Answered,
            Deed::Interrupt(bytes) => {
                self.interrupt(bytes);
                Course::Answered
            }
            Deed::Land => {
                self.land();
                Course::Answered
            }
            Deed::Mute => Course::Mute,
            Deed::Lose => Course::Lost,
            Deed::Delay => Course::Delayed,
        }
    }

    /// Answers a swap.
    fn answer(&mut self, over: u64, bytes: Option<Vec<u8>>) -> SwapResult
        ensures { Swaps (view_of self.old)
            (record { over = over; bytes = option_map (λ b. b.items) bytes })
            (view_of self.new) result }
    {
        match self.make(over, bytes) {
            Ok(true) => SwapResult::Made(self.revision()),
            Ok(false) => SwapResult::Other,
            Err(_) => SwapResult::Unknown,
        }
    }

    /// Delays a swap; without memory it is lost.
    fn delay(&mut self, over: u64, bytes: Option<Vec<u8>>)
        ensures { MayMake (view_of self.old)
            (record { over = over; bytes = option_map (λ b. b.items) bytes }) (view_of self.new) }
    {
        let _ = self.delayed.push(DelayedSwap::new(over, bytes));
    }

    /// A swap, as the script has it.
    fn ask(&mut self, over: u64, bytes: Option<Vec<u8>>) -> SwapResult
        ensures { Swaps (view_of self.old)
            (record { over = over; bytes = option_map (λ b. b.items) bytes })
            (view_of self.new) result }
    {
        match self.begin() {
            Course::Answered => return self.answer(over, bytes),
            Course::Mute => {
                let _ = self.answer(over, bytes);
            }
            Course::Lost => drop(bytes),
            Course::Delayed => self.delay(over, bytes),
        }
        SwapResult::Unknown
    }
}

impl Cell for ScriptedCell {
    ghost use Rattle.std.specs.Prelude.{true};
    ghost use Rattle.cells.specs.Scripted.{view_of};

    ghost is_honest = { true };

    ghost view = { view_of };

    fn read(&mut self) -> Result<VersionedValue, KeepFault> {
        if self.begin() != Course::Answered {
            return Err(KeepFault::Failed);
        }
        Ok(self.copy()?)
    }

    /// Without memory it is lost.
    fn swap(&mut self, revision: u64, bytes: &[u8]) -> SwapResult {
        match Vec::from_slice(self.alloc, bytes) {
            Ok(bytes) => self.ask(revision, Some(bytes)),
            Err(_) => SwapResult::Unknown,
        }
    }

    fn touch(&mut self, revision: u64) -> SwapResult {
        self.ask(revision, None)
    }
}
