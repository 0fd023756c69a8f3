//! Tickets, parts and edits from JSON.

ghost use Rattle.std.specs.Prelude.{◌≡◌, IfErr};
ghost use Rattle.serde_json.specs.View.{view};
ghost use Rattle.json_items.specs.Validation.{Answers};
ghost use Rattle.json_items.specs.TicketForm.{edit_read, ticket_read};
ghost use Rattle.json_items.specs.PartForm.{part_read};

use json_items::{Raw, read_whole_in};
use json_reader::{RawPart, RawTicket};
use serde_json::Value;
use std::alloc::Global;
use ticket_tree::{Edit, Part, Refusal, Ticket};

/// The ticket that a value is. Refuses the first of `NotProfile`, `BadId`, `BadText`,
/// `ReservedStatus` (a node's Status, or what a resource shows of spawns), `DuplicateId`, `TooDeep`
/// and `UnresolvedLink` that stands in it, each looked for in all of it before the next one is;
/// `Memory` may come before any.
pub fn ticket_of(alloc: Global, value: &Value) -> Result<Ticket, Refusal>
    // Proved: A ticket is read as its form says, or refused for its first fault, each looked for
    // in all of it.
    // By `answers`, `tree`.
    ensures answers { Answers result (ticket_read (view value.now)) }
    ensures tree { IfErr result (λ e. e ≡ Refusal.NotATree → ⊥) }
{
    RawTicket::read_whole(alloc, value)
}

/// The part that a value is. Refuses the first of `NotProfile` (also where the resources of the
/// root don't stand in their groups, or a resource shows what it may not), `BadId`, `BadText`,
/// `ReservedStatus` (a node's Status alone), `DuplicateId`, `TooDeep` and `UnresolvedLink` that
/// stands in it, each looked for in all of it before the next one is; `Memory` may come before any.
pub fn part_of(alloc: Global, value: &Value) -> Result<Part, Refusal>
    // Proved: A part and an edit are read as their forms say, or refused for their first fault.
    // By `answers`, `tree`; `edit_of`.
    ensures answers { Answers result (part_read (view value.now)) }
    ensures tree { IfErr result (λ e. e ≡ Refusal.NotATree → ⊥) }
{
    RawPart::read_whole(alloc, value)
}

/// The edit that a value is. Refuses the first of `NotProfile`, `BadId` and `BadText` that stands
/// in it, and `Memory`.
pub fn edit_of(alloc: Global, value: &Value) -> Result<Edit, Refusal>
    ensures { Answers result (edit_read (view value.now)) }
{
    read_whole_in(alloc, value)
}
