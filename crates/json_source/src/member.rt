//! Members of an object by themselves.

ghost use Rattle.std.specs.Prelude.{◌≡◌, false};
ghost use Rattle.std.specs.Option.{option_map};
ghost use Rattle.std.specs.Str.{bytes_eq};
ghost use Rattle.serde_json.specs.Find.{get};
ghost use Rattle.json_source.specs.Tree.{tree_data};

use json::Value as Tree;

/// What stands under a name in the object that a tree is; all else of the tree is given back. Of a
/// name that stands twice it is the last.
pub fn member_alone<'a>(tree: Tree<'a>, name: &str) -> Option<Tree<'a>>
    // Proved: One member, or two of distinct names, are taken out of a tree.
    // By `members_alone`: `first`, `second`.
    ensures { option_map tree_data result ≡ get name.now (tree_data tree.entry) }
{
    let Tree::Object(members) = tree else {
        return None;
    };
    let mut members = members;
    while let Some((own, member)) = members.pop() {
        if own == name {
            return Some(member);
        }
        drop(member);
    }
    None
}

/// What stands under each of two names in the object that a tree is; all else of the tree is given
/// back. Of a name that stands twice it is the last.
pub fn members_alone<'a>(
    tree: Tree<'a>,
    first: &str,
    second: &str,
) -> (Option<Tree<'a>>, Option<Tree<'a>>)
    ensures first { option_map tree_data result.0 ≡ get first.now (tree_data tree.entry) }
    ensures second { bytes_eq first.now second.now ≡ false
        → option_map tree_data result.1 ≡ get second.now (tree_data tree.entry) }
{
    let Tree::Object(members) = tree else {
        return (None, None);
    };
    let mut members = members;
    let mut one = None;
    let mut other = None;
    while let Some((name, member)) = members.pop() {
        if name == first {
            one = one.or(Some(member));
        } else if name == second {
            other = other.or(Some(member));
        } else {
            drop(member);
        }
    }
    (one, other)
}
