use crate::found_nodes::{FoundNodes, PART_MEMBERS, find_node};
use crate::taken_nodes::take_node;
use json_items::{Form, Raw, Validation, find_under, zip};
use json_source::{Source, Tree};
use std::alloc::Global;
use std::marker::Model;
use ticket_tree::{Items, Name, NodeRow, Refusal, Ticket};

/// A ticket by its members and their kinds, of which the names and texts are valid: its rows may be
/// no tree's, and its resources may show spawns.
#[derive(Drop)]
pub struct RawTicket {
    job: Name,
    rows: Items<NodeRow>,
    bare: bool,
}

impl Model for RawTicket {
    ghost use Rattle.json_items.specs.TicketDraft.{RawTicket as TicketSeen};

    ghost Value = { TicketSeen };

    ghost view = { λ t. record { job = record { job_id = t.job; rows = t.rows }; bare = t.bare } };
}

impl RawTicket {
    ghost use Rattle.json_items.specs.Validation.{Reads};
    ghost use Rattle.json_items.specs.TicketDraft.{ticket_form};
    ghost use Rattle.json_items.specs.TicketForm as form;
    ghost use Rattle.json_source.specs.Tree.{tree_data};

    /// What is found of the ticket that a tree is, each node's part of which is given back as soon
    /// as all is found of it. Refuses `NotProfile`, and `Memory`.
    pub fn of(alloc: Global, tree: Tree<'_>) -> Result<Validation<RawTicket>, Refusal>
        // Proved: A ticket is found as its form says, also of a tree that is given back on the
        // way.
        // By `RawTicket::find`.
        ensures { Reads form.has_names form.has_texts result (ticket_form (tree_data tree.entry)) }
    {
        let job = find_under(alloc, &tree, "JobID")?;
        let mut found = FoundNodes::new(alloc);
        take_node(alloc, &mut found, &PART_MEMBERS[2..], 1, tree)?;
        let FoundNodes { rows, bare } = found;
        Ok(zip(job, rows).map(|(job, rows)| RawTicket { job, rows, bare }))
    }
}

impl Form for RawTicket {
    ghost use Rattle.json_items.specs.TicketDraft.{ticket_form};
    ghost use Rattle.json_items.specs.TicketForm as form;

    ghost form = { ticket_form };

    ghost has_names = { form.has_names };

    ghost has_texts = { form.has_texts };

    fn find<S: Source>(alloc: Global, value: &S) -> Result<Validation<RawTicket>, Refusal> {
        let job = find_under(alloc, value, "JobID")?;
        let mut found = FoundNodes::new(alloc);
        find_node(alloc, &mut found, &PART_MEMBERS[2..], 1, value)?;
        let FoundNodes { rows, bare } = found;
        Ok(zip(job, rows).map(|(job, rows)| RawTicket { job, rows, bare }))
    }
}

impl Raw for RawTicket {
    ghost use Rattle.json_items.specs.TicketForm as form;

    type Whole = Ticket;

    ghost late_fault = { form.built_fault };

    ghost made = { λ t. t.job };

    /// Refuses the first of `ReservedStatus` (a node's Status, or what a resource shows of spawns),
    /// `DuplicateId`, `TooDeep` and `UnresolvedLink` that stands in it; `Memory` may come before
    /// any but what a resource shows.
    // Proved: A ticket that was found is built where nothing else is wrong.
    fn build(self, alloc: Global) -> Result<Ticket, Refusal> {
        if !self.bare {
            return Err(Refusal::ReservedStatus);
        }
        let RawTicket { job, rows, .. } = self;
        Ticket::from_rows(alloc, job, rows.into_vec())
    }
}
