use crate::at::At;
use std::alloc::{AllocError, Global};
use std::marker::Model;
use ticket_items::{Audit, Duplicate, Edit, Id, Name, NodeRow, Refusal, Resource};
use ticket_rows::{IndexedRows, Rows, edits, one_row, rows};

/// A job's ticket (JDF 1.5, 3.1): the job's id, and its nodes in preorder. Its rows are always a
/// tree, no node's Status is `Spawned`, each id stands once among nodes and resources, no node is
/// deeper than 32, and each link names a resource in the pool of its node or of one above it.
#[derive(Drop)]
pub struct Ticket {
    job: Name,
    rows: IndexedRows,
}

impl Model for Ticket {
    ghost use Rattle.ticket_rows.specs.Ticket.{Job, IsValid};

    ghost Value = { Job };

    ghost view = { λ a. record { job_id = a.job; rows = a.rows } };

    ghost invariant = { λ a. IsValid a.rows };
}

impl Ticket {
    ghost use Rattle.std.specs.Prelude.{◌≡◌, ◌⊎◌, None, Some, false, OnOk, OnErr, IfOk, IfErr};
    ghost use Rattle.std.specs.Prelude.{IfNone, IfSome, IsOk, MatchResult, is_some};
    ghost use Rattle.std.specs.Option.{option_copied};
    ghost use Rattle.ticket_items.specs.Edit.{grows};
    ghost use Rattle.ticket_rows.specs.Edit.{job_after_edit, node_refusal, refusal_of};
    ghost use Rattle.ticket_rows.specs.Homes as homes;
    ghost use Rattle.ticket_rows.specs.Homes.{resource_of};
    ghost use Rattle.ticket_rows.specs.OneRow.{MayReplaceNode, MayReplaceResource, rows_with_audit};
    ghost use Rattle.ticket_rows.specs.OneRow.{replaced_node, replaced_resource};
    ghost use Rattle.ticket_rows.specs.Place.{BoundsNodesBelow, node_places};
    ghost use Rattle.ticket_rows.specs.Place as tree;
    ghost use Rattle.ticket_rows.specs.Ticket.{IsValid, fault_of, has_node, row_of};
    ghost use Rattle.ticket_tree.specs.At.{IsAt, rows_below};

    /// The ticket of a job with these nodes, in preorder with their depths. Refuses the first of
    /// `NotATree` (no row, a first depth other than 1, a later one under 2 or more than one above
    /// the row before), `ReservedStatus`, `DuplicateId`, `TooDeep` and `UnresolvedLink` that the
    /// rows have. The first two need no memory.
    pub fn from_rows(alloc: Global, job: Name, rows: Vec<NodeRow>) -> Result<Ticket, Refusal>
        // Proved: Rows become a ticket just if they are valid, else their first fault is answered.
        // By `ok`, `valid`, `err`.
        ensures ok { IfOk result (λ t. t ≡ record { job_id = job; rows = rows.items }) }
        ensures valid { OnOk result (IsValid rows.items) }
        ensures err { IfErr result (λ e. (e ≡ Refusal.Memory) ⊎ (fault_of rows.items ≡ Some e)) }
        // Proved: What is no tree, or reserved, is refused without memory.
        // By `not_a_tree`, `reserved`; `Part::new`: `not_a_tree`, `reserved`.
        ensures not_a_tree { fault_of rows.items ≡ Some Refusal.NotATree
            → result ≡ Err Refusal.NotATree }
        ensures reserved { fault_of rows.items ≡ Some Refusal.ReservedStatus
            → result ≡ Err Refusal.ReservedStatus }
    {
        if !rows::is_outline(rows.as_slice()) {
            return Err(Refusal::NotATree);
        }
        if !rows::are_unreserved(rows.as_slice()) {
            return Err(Refusal::ReservedStatus);
        }
        let shallow = rows::are_shallow(rows.as_slice());
        let Some(rows) = IndexedRows::of(alloc, rows)? else {
            return Err(Refusal::DuplicateId);
        };
        if !shallow {
            return Err(Refusal::TooDeep);
        }
        if !rows.are_resolved() {
            return Err(Refusal::UnresolvedLink);
        }
        Ok(Ticket { job, rows })
    }

    /// The job's id.
    pub fn job(&self) -> &Name
        // Proved: Nodes, resources, homes and what is below are found.
        // By `Ticket::resource`, `Ticket::home_of`, `Ticket::is_below`; `Ticket::node`: `found`,
        // `valid`; `Ticket::subtree`: `found`, `known`.
        ensures { result.now ≡ self.now.job_id }
    {
        &self.job
    }

    /// The nodes in preorder.
    pub fn rows(&self) -> Rows<'_>
        // Proved: A ticket is always valid.
        // By `rows`, `valid`.
        ensures rows { result ≡ self.now.rows }
        ensures valid { IsValid self.now.rows }
    {
        self.rows.rows()
    }

    /// The node of an id.
    pub fn node(&self, id: &Id) -> Option<&NodeRow>
        ensures found { option_copied result ≡ row_of self.now.rows id.now }
        ensures valid { IsValid self.now.rows }
    {
        self.rows.node(id)
    }

    /// The resource of an id.
    pub fn resource(&self, id: &Id) -> Option<&Resource>
        ensures { option_copied result ≡ resource_of self.now.rows id.now }
    {
        self.rows.resource(id)
    }

    /// The node in whose pool the resource of an id is.
    pub fn home_of(&self, id: &Id) -> Option<&Id>
        ensures { option_copied result ≡ homes.home_of self.now.rows id.now }
    {
        self.rows.home_of(id)
    }

    /// Where the nodes below a node stand among the rows, itself the first of them: from where, and
    /// up to where. `None` where no node has the id.
    pub fn subtree(&self, id: &Id) -> Option<(usize, usize)>
        ensures found { IfSome result (λ b. BoundsNodesBelow self.now.rows id.now b.0 b.1) }
        ensures known { is_some result ≡ has_node self.now.rows id.now }
    {
        self.rows.subtree(id)
    }

    /// The ticket at a node. `None` where no node has the id. Needs no memory.
    pub fn at(&self, node: &Id) -> Option<At<'_>>
        // Proved: At a node the rows around it are shown, and how deep it stands.
        // By `known`, `at`, `valid`; `Ticket::rows_below`: `rows`, `valid`; `At::levels`.
        ensures known { is_some result ≡ has_node self.now.rows node.now }
        ensures at { IfSome result (λ a. IsAt self.now.rows node.now a) }
        ensures valid { IsValid self.now.rows }
    {
        match self.rows.subtree(node) {
            None => None,
            Some((from, to)) => Some(At::between(&self.rows.rows(), from, to)),
        }
    }

    /// The rows of a node and of those below it; none where no node has the id.
    pub fn rows_below(&self, node: &Id) -> Rows<'_>
        ensures rows { result ≡ rows_below self.now.rows node.now }
        ensures valid { IsValid self.now.rows }
    {
        match self.at(node) {
            None => Rows::new(&[]),
            Some(At { below, .. }) => below,
        }
    }

    /// Whether `lower` is `upper` or stands below it; false where either is unknown.
    pub fn is_below(&self, lower: &Id, upper: &Id) -> bool
        ensures { result ≡ tree.is_below (node_places self.now.rows) lower.now upper.now }
    {
        self.rows.is_below(lower, upper)
    }

    /// Why `apply` would refuse an edit, memory aside: the first of these. `SetStatus`:
    /// `UnknownNode`, `ReservedStatus`; `SetAttr`, `Note`: `UnknownNode`; `SetResStatus`,
    /// `SetResAttr`: `UnknownResource`; `AddNode`: `UnknownNode`, `ReservedStatus`, `DuplicateId`,
    /// `TooDeep`; `AddResource`: `UnknownNode`, `DuplicateId`; `AddLink`: `UnknownNode`,
    /// `UnknownResource`, `UnresolvedLink`. Needs no memory.
    pub fn check(&self, edit: &Edit) -> Result<(), Refusal>
        ensures { MatchResult result
            (λ _. refusal_of edit.now self.now.rows ≡ None)
            (λ e. refusal_of edit.now self.now.rows ≡ Some e) }
    {
        edits::check(&self.rows, edit)
    }

    /// Does an edit, at a time in seconds since 1970. Refuses what `check` says, which needs no
    /// memory, and then `Memory`; never `Memory` where the edit gives another Status, which takes
    /// none. A refusal changes nothing.
    pub fn apply(&mut self, alloc: Global, edit: Edit, at: u64) -> Result<(), Refusal>
        // Proved: Each edit does just what it says.
        // By `ok`, `err`.
        ensures ok { OnOk result (self.new ≡ job_after_edit edit at self.old) }
        ensures err { OnErr result (self.new ≡ self.old) }
        // Proved: An edit is refused for the first reason that holds, without memory.
        // By `refused`, `memory`; `Ticket::check`.
        ensures refused { IfSome (refusal_of edit self.old.rows) (λ e. result ≡ Err e) }
        ensures memory { IfNone (refusal_of edit self.old.rows)
            (IfErr result (λ e. e ≡ Refusal.Memory)) }
        // Proved: A new Status takes no memory.
        // By `in_place`; `Part::apply`: `in_place`.
        ensures in_place { grows edit ≡ false
            → IfNone (refusal_of edit self.old.rows) (IsOk result) }
    {
        edits::apply(alloc, &mut self.rows, edit, at)
    }

    /// Puts an audit last at a node. Refuses `UnknownNode`, which needs no memory, and then
    /// `Memory`. A refusal changes nothing.
    pub fn append(&mut self, _alloc: Global, node: &Id, audit: Audit) -> Result<(), Refusal>
        // Proved: An audit goes last at its node, and nothing else changes.
        // By `ok`, `err`, `refused`, `memory`.
        ensures ok { OnOk result (self.new
            ≡ record self.old { rows = rows_with_audit node.now audit self.old.rows }) }
        ensures err { OnErr result (self.new ≡ self.old) }
        ensures refused { IfSome (node_refusal node.now self.old.rows) (λ e. result ≡ Err e) }
        ensures memory { IfNone (node_refusal node.now self.old.rows)
            (IfErr result (λ e. e ≡ Refusal.Memory)) }
    {
        one_row::append(&mut self.rows, node, audit)
    }

    /// Puts a node in the place of the one of its id, which keeps its depth. That one has the same
    /// Type, job part, links and ids of resources, and the new Status isn't `Spawned`. Needs no
    /// memory.
    pub fn replace_node(&mut self, row: NodeRow)
        // Wants: a node that may stand in place of the one of its id.
        requires { MayReplaceNode self.old.rows row }
        // Proved: A node or a resource is put in place of the one of its id.
        // By `Ticket::replace_resource`.
        ensures { self.new ≡ record self.old { rows = replaced_node row self.old.rows } }
    {
        one_row::replace_node(&mut self.rows, row);
    }

    /// Puts a resource in the place of the one of its id, which has the same name and Class. Needs
    /// no memory.
    pub fn replace_resource(&mut self, resource: Resource)
        // Wants: a resource that may stand in place of the one of its id.
        requires { MayReplaceResource self.old.rows resource }
        ensures { self.new ≡ record self.old { rows = replaced_resource resource self.old.rows } }
    {
        one_row::replace_resource(&mut self.rows, resource);
    }
}

impl Clone for Ticket {
    ghost use Rattle.std.specs.Prelude.{◌≡◌};

    ghost is_clone = { λ ticket copied. copied ≡ ticket };

    fn clone(&self) -> Result<Ticket, AllocError> {
        Ok(Ticket {
            job: self.job.clone()?,
            rows: self.rows.clone()?,
        })
    }
}

impl Duplicate for Ticket {
    ghost equal = { λ _ _ same. same };
}
