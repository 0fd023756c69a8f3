//! What the edits do to the row at a place.

ghost use Rattle.std.specs.Prelude.{◌≡◌, ◌∷◌, ◌++◌, [], ◌<◌, Some, true, length, OnErr, OnOk};
ghost use Rattle.std.specs.List.{list_any, position};
ghost use Rattle.std.specs.Str.{bytes_eq};
ghost use Rattle.ticket_items.specs.Attrs.{with_attr};
ghost use Rattle.ticket_rows.specs.Boxed.{contents};
ghost use Rattle.ticket_items.specs.Ids.{are_distinct};
ghost use Rattle.ticket_rows.specs.ChangedRow.{at_place};
ghost use Rattle.ticket_rows.specs.Edit.{with_resource};
ghost use Rattle.ticket_rows.specs.OneRow as one;
ghost use Rattle.ticket_rows.specs.Ticket.{ids};

use std::alloc::AllocError;
use ticket_items::{Audit, Id, Name, NodeRow, Resource, Text};

/// Gives the node another Status.
pub fn set_status(rows: &mut Vec<Box<NodeRow>>, place: usize, status: Name)
    requires { place < length (contents rows.old.items) }
    ensures { contents rows.new.items
        ≡ at_place place (λ r. record r { status = status }) (contents rows.old.items) }
{
    rows[place].status = status;
}

/// Gives the node an attribute.
pub fn set_attr(
    rows: &mut Vec<Box<NodeRow>>,
    place: usize,
    name: Name,
    value: Text,
) -> Result<(), AllocError>
    requires { place < length (contents rows.old.items) }
    ensures ok { OnOk result (contents rows.new.items
        ≡ at_place place (λ r. record r { attrs = with_attr name value r.attrs })
        (contents rows.old.items)) }
    ensures err { OnErr result (contents rows.new.items ≡ contents rows.old.items) }
{
    rows[place].attrs.set(name, value)?;
    Ok(())
}

/// Puts an audit last at the node.
pub fn append(rows: &mut Vec<Box<NodeRow>>, place: usize, audit: Audit) -> Result<(), AllocError>
    requires { place < length (contents rows.old.items) }
    ensures ok { OnOk result (contents rows.new.items
        ≡ at_place place (λ r. record r { audits = r.audits ++ audit ∷ [] })
        (contents rows.old.items)) }
    ensures err { OnErr result (contents rows.new.items ≡ contents rows.old.items) }
{
    rows[place].audits.push(audit)?;
    Ok(())
}

/// Gives a resource of the row's pool another Status.
pub fn set_resource_status(rows: &mut Vec<Box<NodeRow>>, home: usize, resource: &Id, status: Name)
    requires distinct { are_distinct (ids (contents rows.old.items)) ≡ true }
    requires home { position (λ r. list_any (λ x. bytes_eq x.id resource.now) r.resources)
        (contents rows.old.items) ≡ Some home }
    ensures { contents rows.new.items
        ≡ with_resource resource.now (λ x. record x { status = status }) (contents rows.old.items) }
{
    rows[home].resources.set_status(resource, status);
}

/// Gives a resource of the row's pool an attribute.
pub fn set_resource_attr(
    rows: &mut Vec<Box<NodeRow>>,
    home: usize,
    resource: &Id,
    name: Name,
    value: Text,
) -> Result<(), AllocError>
    requires distinct { are_distinct (ids (contents rows.old.items)) ≡ true }
    requires home { position (λ r. list_any (λ x. bytes_eq x.id resource.now) r.resources)
        (contents rows.old.items) ≡ Some home }
    ensures ok { OnOk result (contents rows.new.items ≡ with_resource resource.now
        (λ x. record x { attrs = with_attr name value x.attrs }) (contents rows.old.items)) }
    ensures err { OnErr result (contents rows.new.items ≡ contents rows.old.items) }
{
    rows[home].resources.set_attr(resource, name, value)?;
    Ok(())
}

/// Puts a resource of the row's pool in the place of the one of its id, which is looked for from a
/// place on.
pub fn replace_resource(rows: &mut Vec<Box<NodeRow>>, home: usize, from: usize, resource: Resource)
    requires distinct { are_distinct (ids (contents rows.old.items)) ≡ true }
    requires home { position (λ r. list_any (λ x. bytes_eq x.id resource.id) r.resources)
        (contents rows.old.items) ≡ Some home }
    ensures { contents rows.new.items ≡ one.replaced_resource resource (contents rows.old.items) }
{
    rows[home].resources.replace(resource, from);
}
