ghost use Rattle.std.specs.Prelude.{◌≡◌, ◌⊎◌, Some, OnOk, IfErr};
ghost use Rattle.ticket_rows.specs.Copies.{with_copies};
ghost use Rattle.ticket_rows.specs.Ticket.{IsValid, fault_of};

use crate::soundness;
use std::alloc::{AllocError, Global};
use std::marker::Model;
use ticket_items::{
    Ancestor, Ancestors, Duplicate, Edit, Name, NodeRow, Refusal, Resource, Resources, SpawnId,
    copies,
};
use ticket_rows::distinct::are_distinct_with;
use ticket_rows::resolved::are_resolved_with;
use ticket_rows::{part_edits, rows};

/// A part of a ticket, which a spawn gives to another controller (JDF 1.5, 4.4): a node with all
/// below it as a ticket of its own, the nodes that it stood under, and copies of the resources that
/// it links from above, some to be changed and some to be read alone. With the copies in the pool
/// of its root it is always a valid ticket.
#[derive(Drop)]
pub struct Part {
    job: Name,
    spawn_id: SpawnId,
    ancestors: Ancestors,
    rows: Vec<NodeRow>,
    rw: Resources,
    ro: Resources,
}

impl Model for Part {
    ghost use Rattle.ticket_tree.specs.Part.{PartCopy};
    ghost use Rattle.ticket_rows.specs.Copies.{with_copies};
    ghost use Rattle.ticket_rows.specs.Ticket.{IsValid};

    ghost Value = { PartCopy };

    ghost view = { λ a. record {
      job_id = a.job;
      spawn_id = a.spawn_id;
      ancestors = a.ancestors;
      rows = a.rows.items;
      rw = a.rw;
      ro = a.ro;
    } };

    ghost invariant = { λ a. IsValid (with_copies a.rows.items a.rw a.ro) };
}

/// Refuses the first fault that rows have with copies as resources of the root. The first two,
/// `NotATree` and `ReservedStatus`, need no memory.
fn check_rows(
    alloc: Global,
    rows: &[NodeRow],
    rw: &[Resource],
    ro: &[Resource],
) -> Result<(), Refusal>
    ensures valid { OnOk result (IsValid (with_copies rows.now rw.now ro.now)) }
    ensures err { IfErr result
        (λ e. (e ≡ Refusal.Memory) ⊎ (fault_of (with_copies rows.now rw.now ro.now) ≡ Some e)) }
    ensures not_a_tree { fault_of (with_copies rows.now rw.now ro.now) ≡ Some Refusal.NotATree
        → result ≡ Err Refusal.NotATree }
    ensures reserved { fault_of (with_copies rows.now rw.now ro.now) ≡ Some Refusal.ReservedStatus
        → result ≡ Err Refusal.ReservedStatus }
{
    if !rows::is_outline(rows) {
        return Err(Refusal::NotATree);
    }
    if !rows::are_unreserved(rows) {
        return Err(Refusal::ReservedStatus);
    }
    if !are_distinct_with(alloc, rows, rw, ro)? {
        return Err(Refusal::DuplicateId);
    }
    if !rows::are_shallow(rows) {
        return Err(Refusal::TooDeep);
    }
    if !are_resolved_with(alloc, rows, rw, ro)? {
        return Err(Refusal::UnresolvedLink);
    }
    Ok(())
}

impl Part {
    ghost use Rattle.std.specs.Prelude.{◌≡◌, ◌⊎◌, Some, false, OnOk, OnErr, IfOk, IfErr, IfNone};
    ghost use Rattle.std.specs.Prelude.{IfSome, IsOk};
    ghost use Rattle.ticket_tree.specs.Part as part;
    ghost use Rattle.ticket_rows.specs.Copies.{with_copies};
    ghost use Rattle.ticket_items.specs.Edit.{grows, is_structural};
    ghost use Rattle.ticket_rows.specs.Ticket.{IsValid, fault_of};

    /// The part of a job with these nodes in preorder, the root at depth 1, and these copies.
    /// Refuses the first of `NotATree`, `ReservedStatus`, `DuplicateId`, `TooDeep` and
    /// `UnresolvedLink` that the rows have with the copies as resources of the root. The first two
    /// need no memory.
    pub fn new(
        alloc: Global,
        job: Name,
        spawn_id: SpawnId,
        ancestors: Ancestors,
        rows: Vec<NodeRow>,
        rw: Resources,
        ro: Resources,
    ) -> Result<Part, Refusal>
        // Proved: A part is made just of rows that are valid with its copies.
        // By `ok`, `valid`, `err`; `Part::from_valid`.
        ensures ok { IfOk result (λ p. p ≡ part.part_copy job spawn_id ancestors rows.items rw ro) }
        ensures valid { OnOk result (IsValid (with_copies rows.items rw ro)) }
        ensures err { IfErr result
            (λ e. (e ≡ Refusal.Memory) ⊎ (fault_of (with_copies rows.items rw ro) ≡ Some e)) }
        ensures not_a_tree { fault_of (with_copies rows.items rw ro) ≡ Some Refusal.NotATree
            → result ≡ Err Refusal.NotATree }
        ensures reserved { fault_of (with_copies rows.items rw ro) ≡ Some Refusal.ReservedStatus
            → result ≡ Err Refusal.ReservedStatus }
    {
        check_rows(alloc, rows.as_slice(), rw.as_slice(), ro.as_slice())?;
        Ok(Part::from_valid(job, spawn_id, ancestors, rows, rw, ro))
    }

    /// The same of nodes that are known to be valid with these copies.
    pub fn from_valid(
        job: Name,
        spawn_id: SpawnId,
        ancestors: Ancestors,
        rows: Vec<NodeRow>,
        rw: Resources,
        ro: Resources,
    ) -> Part
        // Wants: rows that are valid with the copies.
        requires { IsValid (with_copies rows.items rw ro) }
        ensures { result ≡ part.part_copy job spawn_id ancestors rows.items rw ro }
    {
        Part {
            job,
            spawn_id,
            ancestors,
            rows,
            rw,
            ro,
        }
    }

    /// The job's id.
    pub fn job(&self) -> &Name
        // Proved: A part is read as it is.
        // By `Part::ancestors`, `Part::rw`, `Part::ro`; `Part::spawn_id`: `id`, `valid`;
        // `Part::rows`: `rows`, `valid`; `Part::into_rows`: `rows`, `copies`, `valid`.
        ensures { result.now ≡ self.now.job_id }
    {
        &self.job
    }

    /// The spawn that it was made for.
    pub fn spawn_id(&self) -> SpawnId
        ensures id { result ≡ self.now.spawn_id }
        ensures valid { IsValid (with_copies self.now.rows self.now.rw self.now.ro) }
    {
        self.spawn_id
    }

    /// The nodes that its root stood under, from the ticket's root to the parent.
    pub fn ancestors(&self) -> &[Ancestor]
        ensures { result.now ≡ self.now.ancestors }
    {
        self.ancestors.as_slice()
    }

    /// The nodes in preorder, the root at depth 1.
    pub fn rows(&self) -> &[NodeRow]
        ensures rows { result.now ≡ self.now.rows }
        ensures valid { IsValid (with_copies self.now.rows self.now.rw self.now.ro) }
    {
        self.rows.as_slice()
    }

    /// The copies that may be changed.
    pub fn rw(&self) -> &[Resource]
        ensures { result.now ≡ self.now.rw }
    {
        self.rw.as_slice()
    }

    /// The copies that may be read alone.
    pub fn ro(&self) -> &[Resource]
        ensures { result.now ≡ self.now.ro }
    {
        self.ro.as_slice()
    }

    /// Whether it can have come from a ticket: it has ancestors, their ids differ from each other
    /// and from all ids of the part, no node is deeper than 32 below them, and each copy is linked
    /// by some row. Needs no memory.
    pub fn is_sound(&self) -> bool
        // Proved: Whether a part can have come from a ticket is told.
        ensures { result ≡ part.is_sound self.now }
    {
        let ancestors = self.ancestors.as_slice();
        let rows = self.rows.as_slice();
        let rw = self.rw.as_slice();
        let ro = self.ro.as_slice();
        soundness::has_ancestors(ancestors)
            && soundness::are_shallow_below(ancestors.len(), rows)
            && soundness::are_ancestors_new(ancestors, rows, rw, ro)
            && soundness::are_linked(rows, rw)
            && soundness::are_linked(rows, ro)
    }

    /// Does an edit that adds no node, resource or link, at a time in seconds since 1970: of a
    /// node, of a resource of its pools, or of a copy that may be changed. Refuses the first of
    /// `UnknownNode` or `UnknownResource` (the latter also for a copy that may be read alone) and
    /// `ReservedStatus`, which need no memory, and then `Memory`; never `Memory` where the edit
    /// gives another Status. A refusal changes nothing.
    pub fn apply(&mut self, _alloc: Global, edit: Edit, at: u64) -> Result<(), Refusal>
        // Wants: an edit that adds nothing to the tree.
        requires { is_structural edit ≡ false }
        // Proved: An edit of a part changes a node, a resource or a copy to change, or is refused.
        // By `ok`, `err`, `refused`, `memory`.
        ensures ok { OnOk result (self.new ≡ part.edited_part edit at self.old) }
        ensures err { OnErr result (self.new ≡ self.old) }
        ensures refused { IfSome (part.refusal_of_part edit self.old) (λ e. result ≡ Err e) }
        ensures memory { IfNone (part.refusal_of_part edit self.old)
            (IfErr result (λ e. e ≡ Refusal.Memory)) }
        ensures in_place { grows edit ≡ false
            → IfNone (part.refusal_of_part edit self.old) (IsOk result) }
    {
        part_edits::apply(&mut self.rows, &mut self.rw, edit, at)
    }

    /// Its nodes, and the copies that may be changed, by themselves. With its other copies they are
    /// still a valid ticket. Needs no memory.
    pub fn into_rows(self) -> (Vec<NodeRow>, Vec<Resource>)
        ensures rows { result.0.items ≡ self.rows }
        ensures copies { result.1.items ≡ self.rw }
        ensures valid { IsValid (with_copies result.0.items result.1.items self.ro) }
    {
        let Part { rows, rw, .. } = self;
        (rows, rw.into_vec())
    }
}

impl Clone for Part {
    ghost use Rattle.std.specs.Prelude.{◌≡◌};

    ghost is_clone = { λ part copied. copied ≡ part };

    fn clone(&self) -> Result<Part, AllocError> {
        Ok(Part {
            job: self.job.clone()?,
            spawn_id: self.spawn_id,
            ancestors: self.ancestors.clone()?,
            rows: copies(*self.rows.allocator(), self.rows.as_slice())?,
            rw: self.rw.clone()?,
            ro: self.ro.clone()?,
        })
    }
}

impl Duplicate for Part {
    ghost equal = { λ _ _ same. same };
}
