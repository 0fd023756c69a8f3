ghost use Rattle.std.specs.Prelude.{◌≡◌, ◌<◌, ◌≤◌, true, [], length, OnOk, OnErr};
ghost use Rattle.courier.specs.Turns.{IsFirstOfAll, IsMoved, Joins, TakesDue, times};

use crate::turn::Turn;
use std::alloc::{AllocError, Global};
use std::cmp::Reverse;
use std::collections::BinaryHeap;
use std::marker::Model;

/// The turns of those destinations that wait, the earliest at the top, and room for more.
#[derive(Drop)]
pub(crate) struct Schedule {
    heap: BinaryHeap<Reverse<Turn>>,
}

impl Model for Schedule {
    ghost use Rattle.std.specs.Prelude.{map};
    ghost use Rattle.std.specs.BinaryHeap.{IsHeap, heap_items, heap_capacity};
    ghost use Rattle.courier.specs.Turns.{Turns, turn_cmp};

    ghost Value = { Turns };

    ghost view = { λ a. record {
      turns = map (λ t. t.0) (heap_items a.heap);
      room = heap_capacity a.heap;
    } };

    ghost invariant = { λ a. IsHeap (λ x y. turn_cmp y.0 x.0) (heap_items a.heap) };
}

impl Schedule {
    /// No turns, and room for none.
    pub(crate) fn new(alloc: Global) -> Schedule
        ensures { result.turns ≡ [] }
    {
        Schedule {
            heap: BinaryHeap::new(alloc),
        }
    }

    /// Makes room for so many in all.
    pub(crate) fn reserve(&mut self, room: usize) -> Result<(), AllocError>
        ensures turns { self.new.turns ≡ self.old.turns }
        ensures ok { OnOk result (room ≤ self.new.room) }
        ensures kept { self.old.room ≤ self.new.room }
    {
        self.heap.reserve(room.saturating_sub(self.heap.len()))
    }

    /// Adds a turn, if it is to be there.
    pub(crate) fn add(&mut self, on: bool, turn: Turn)
        requires { on ≡ true → length self.old.turns < self.old.room }
        ensures { Joins on turn self.old self.new }
    {
        if on {
            let _added = self.heap.push(Reverse(turn));
        }
    }

    /// A turn that is there once comes at this moment. It is a walk over all.
    pub(crate) fn advance(&mut self, turn: Turn, due: u64)
        requires { times turn self.old.turns ≡ 1 }
        ensures { IsMoved turn due self.old self.new }
    {
        self.heap.retain(|other| other.0 != turn);
        let line = turn.line;
        let _moved = self.heap.push(Reverse(Turn { due, line }));
    }

    /// The first.
    pub(crate) fn first(&self) -> Option<Turn>
        ensures { IsFirstOfAll self.now.turns result }
    {
        match self.heap.peek() {
            Some(Reverse(turn)) => Some(*turn),
            None => None,
        }
    }

    /// Takes the first out, if its moment has come.
    pub(crate) fn take_due(&mut self, now: u64) -> Option<Turn>
        ensures { TakesDue now self.old self.new result }
    {
        let next = self.first()?;
        if next.due > now {
            return None;
        }
        let taken = self.heap.pop()?;
        Some(taken.0)
    }
}
