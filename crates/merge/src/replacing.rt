//! Rows and resources of a part, put in the places of those of their ids.

ghost use Rattle.std.specs.Prelude.{◌≡◌};
ghost use Rattle.merge.specs.Putting.{MayTakeNodes, MayTakeResources, with_nodes, with_resources};

use ticket_tree::{NodeRow, Resource, Ticket};

/// Puts each of the nodes in the place of the one of its id.
fn replace_nodes(ticket: &mut Ticket, nodes: Vec<NodeRow>)
    requires { MayTakeNodes ticket.old.rows nodes.items }
    ensures { ticket.new ≡ record ticket.old { rows = with_nodes nodes.items ticket.old.rows } }
{
    for row in nodes {
        ticket.replace_node(row);
    }
}

/// Puts each of the resources in the place of the one of its id.
fn replace_resources(ticket: &mut Ticket, resources: Vec<Resource>)
    requires { MayTakeResources ticket.old.rows resources.items }
    ensures { ticket.new ≡ record ticket.old {
      rows = with_resources resources.items
          ticket.old.rows;
    } }
{
    for resource in resources {
        ticket.replace_resource(resource);
    }
}

/// Puts nodes and resources in the places of those of their ids. Needs no memory.
pub fn put_back(ticket: &mut Ticket, nodes: Vec<NodeRow>, resources: Vec<Resource>)
    requires nodes { MayTakeNodes ticket.old.rows nodes.items }
    requires resources { MayTakeResources ticket.old.rows resources.items }
    ensures { ticket.new ≡ record ticket.old {
      rows = with_nodes nodes.items
          (with_resources resources.items ticket.old.rows);
    } }
{
    replace_resources(ticket, resources);
    replace_nodes(ticket, nodes);
}
