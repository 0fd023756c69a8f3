//! Laws of the words that the contracts of this crate use. Each function does nothing: its contract
//! is the law.

ghost use Rattle.ticket_tree.specs.Laws as law;

/// Rows have no fault exactly if they are valid.
pub fn valid_rows_have_no_fault()
    // Proved: Rows have no fault just if they are valid.
    ensures { law.NoFaultIsValid }
{}

/// Each node of valid rows is either the root, whose path is itself alone and which comes first, or
/// has one parent: its path is itself and then its parent's path, on which it doesn't stand.
pub fn each_node_has_one_parent()
    // Proved: A node is the root or has one parent, its depth is the length of its path, and rows
    // are the preorder.
    // By `laws::depth_is_length_of_path`, `laws::rows_are_the_preorder_of_children`.
    ensures { law.OneParentEach }
{}

/// The depth of a node is the length of its path: 1 at the root, and one more than its parent's at
/// another node.
pub fn depth_is_length_of_path()
    ensures { law.DepthIsPathLength }
{}

/// A node is another or below it exactly if it is known, and is the same or has a parent that is
/// the other or below it.
pub fn below_is_the_same_or_has_a_parent_below()
    // Proved: A node is below another just if it is the same, or its parent is below that.
    ensures { law.BelowByParent }
{}

/// Valid rows are their root followed by what is below each of its children, in order.
pub fn rows_are_the_preorder_of_children()
    ensures { law.RowsArePreorder }
{}

/// An edit of the rows is the edit of the plain ticket: it is refused for the same; it makes of the
/// places what the plain edit makes of them, which is to move nothing, to add one place, or to add
/// a link to one; and of the rows by id, which is to change one, to add one, or none.
pub fn edit_of_the_rows_is_the_plain_edit()
    // Proved: An edit is refused for what it is on the plain ticket, and makes of places and rows
    // what it makes there; one of a part moves nothing and changes one row.
    // By `refused`, `places`, `rows`; `laws::edit_of_a_part_is_the_plain_edit`: `refused`,
    // `places`, `rows`.
    ensures refused { law.RefusalIsPlain }
    ensures places { law.EditOfPlaces }
    ensures rows { law.EditOfRows }
{}

/// An audit put at a node moves nothing, and changes the row of that node alone.
pub fn append_changes_one_row()
    // Proved: An audit more, and a resource in place of another, moves nothing and changes one row
    // alone.
    // By `places`, `rows`; `laws::replaced_resource_changes_one_row`: `places`, `rows`.
    ensures places { law.AppendOfPlaces }
    ensures rows { law.AppendOfRows }
{}

/// A node put in the place of another moves nothing, where the resources of its pool have the names
/// and Classes that they had; and changes the rows of the node and of these resources alone.
pub fn replaced_node_changes_its_rows()
    // Proved: A node in place of another changes its row and those of its pool alone, and moves
    // nothing where its pool keeps names and Classes.
    // By `places`, `rows`.
    ensures places { law.ReplacedNodeOfPlaces }
    ensures rows { law.ReplacedNodeOfRows }
{}

/// A resource put in the place of another moves nothing, and changes its row alone.
pub fn replaced_resource_changes_one_row()
    ensures places { law.ReplacedResourceOfPlaces }
    ensures rows { law.ReplacedResourceOfRows }
{}

/// A change leaves a ticket: an edit that isn't refused, an audit put at a node, and a node or a
/// resource put in the place of one that it may take.
pub fn changes_leave_a_ticket()
    // Proved: Each change leaves a ticket, and an edit of a part leaves a part.
    // By `edits`, `append`, `nodes`, `resources`; `laws::edit_of_a_part_is_the_plain_edit`:
    // `valid`.
    ensures edits { law.EditIsValid }
    ensures append { law.AppendIsValid }
    ensures nodes { law.ReplacedNodeIsValid }
    ensures resources { law.ReplacedResourceIsValid }
{}

/// What is found among the rows is found on the places and on the rows by id: a node and a
/// resource, each with what of it stands there, and the home of a resource.
pub fn lookups_are_plain()
    // Proved: Look-ups are those of the plain ticket.
    // By `nodes`, `resources`, `homes`; `laws::places_are_found_by_kind`: `nodes`, `resources`,
    // `kinds`.
    ensures nodes { law.NodeIsAtPlace }
    ensures resources { law.ResourceIsAtPlace }
    ensures homes { law.HomeIsAtPlace }
{}

/// Places by kind: those of nodes and of resources are there just if the rows have them, are the
/// places of their ids, and are all that there are.
pub fn places_are_found_by_kind()
    ensures nodes { law.NodesAmongPlaces }
    ensures resources { law.ResourcesAmongPlaces }
    ensures kinds { law.PlacesByKind }
{}

/// An id stands at a place just if it has a row.
pub fn an_id_stands_where_its_row_does()
    // Proved: An id stands where its row does, a resource where its home does.
    // By `laws::path_of_a_resource_is_its_homes`, `laws::places_and_rows_determine_a_ticket`.
    ensures { law.StandsWithRow }
{}

/// The path of a resource is that of its home.
pub fn path_of_a_resource_is_its_homes()
    ensures { law.PathIsHomes }
{}

/// Valid rows are determined by their places and their rows by id: a depth is the length of a path.
pub fn places_and_rows_determine_a_ticket()
    ensures { law.PlacesAndRowsDetermine }
{}

/// An edit of a part is that edit of its rows with the copies that may be changed: it is refused
/// for the same, leaves a part, moves nothing, and changes the row of its target alone.
pub fn edit_of_a_part_is_the_plain_edit()
    ensures refused { law.PartRefusalIsOfOwnRows }
    ensures valid { law.PartEditIsValid }
    ensures places { law.PartEditOfPlaces }
    ensures rows { law.PartEditOfRows }
{}
