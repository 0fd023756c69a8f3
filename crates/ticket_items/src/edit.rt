use crate::duplicate::Duplicate;
use crate::id::Id;
use crate::link::Link;
use crate::name::Name;
use crate::resource::Resource;
use crate::text::Text;

/// One change of a ticket. The last three are structural: they add to the tree.
#[derive(Clone, Drop)]
pub enum Edit {
    /// Gives a node another Status.
    SetStatus {
        node: Id,
        status: Name,
    },
    /// Gives a node an attribute, in place of one of that name.
    SetAttr {
        node: Id,
        name: Name,
        value: Text,
    },
    /// Gives a resource another Status.
    SetResStatus {
        resource: Id,
        status: Name,
    },
    /// Gives a resource an attribute, in place of one of that name.
    SetResAttr {
        resource: Id,
        name: Name,
        value: Text,
    },
    /// Puts a Notification last in a node's AuditPool (JDF 1.5, 3.11).
    Note {
        node: Id,
        text: Text,
    },
    /// Puts a new node last among the children of `node`, without attributes, pools or audits.
    AddNode {
        node: Id,
        id: Id,
        kind: Name,
        job_part: Name,
        status: Name,
    },
    /// Puts a resource last in a node's ResourcePool (JDF 1.5, 3.8).
    AddResource {
        node: Id,
        resource: Resource,
    },
    /// Puts a link last in a node's ResourceLinkPool (JDF 1.5, 3.9).
    AddLink {
        node: Id,
        link: Link,
    },
}

impl Edit {
    ghost use Rattle.std.specs.Prelude.{◌≡◌};
    ghost use Rattle.std.specs.Option.{option_map};
    ghost use Rattle.ticket_items.specs.Edit as edits;

    /// The id that it changes: that of a resource where it gives a resource another Status or an
    /// attribute, and else that of a node.
    pub fn target(&self) -> &Id
        // Proved: What an edit changes, whether that is a node, whether it adds to the tree, and
        // the id that it adds, is told.
        // By `Edit::is_of_node`, `Edit::is_structural`, `Edit::added_id`.
        ensures { result.now ≡ edits.target self.now }
    {
        match self {
            Edit::SetStatus { node, .. } => node,
            Edit::SetAttr { node, .. } => node,
            Edit::SetResStatus { resource, .. } => resource,
            Edit::SetResAttr { resource, .. } => resource,
            Edit::Note { node, .. } => node,
            Edit::AddNode { node, .. } => node,
            Edit::AddResource { node, .. } => node,
            Edit::AddLink { node, .. } => node,
        }
    }

    /// Whether it changes a node, and not a resource.
    pub fn is_of_node(&self) -> bool
        ensures { result ≡ edits.is_of_node self.now }
    {
        match self {
            Edit::SetStatus { .. } | Edit::SetAttr { .. } | Edit::Note { .. } => true,
            Edit::SetResStatus { .. } | Edit::SetResAttr { .. } => false,
            Edit::AddNode { .. } | Edit::AddResource { .. } | Edit::AddLink { .. } => true,
        }
    }

    /// Whether it adds to the tree: a node, a resource or a link.
    pub fn is_structural(&self) -> bool
        ensures { result ≡ edits.is_structural self.now }
    {
        match self {
            Edit::AddNode { .. } | Edit::AddResource { .. } | Edit::AddLink { .. } => true,
            Edit::SetStatus { .. } | Edit::SetAttr { .. } | Edit::Note { .. } => false,
            Edit::SetResStatus { .. } | Edit::SetResAttr { .. } => false,
        }
    }

    /// The id that it adds to the ticket.
    pub fn added_id(&self) -> Option<&Id>
        ensures { option_map (λ i. i.now) result ≡ edits.added_id self.now }
    {
        match self {
            Edit::AddNode { id, .. } => Some(id),
            Edit::AddResource { resource, .. } => Some(&resource.id),
            Edit::SetStatus { .. } | Edit::SetAttr { .. } | Edit::Note { .. } => None,
            Edit::SetResStatus { .. } | Edit::SetResAttr { .. } | Edit::AddLink { .. } => None,
        }
    }
}

impl Duplicate for Edit {
    ghost use Rattle.std.proofs.Common.{rules};

    ghost equal = { Prim.search rules };
}
