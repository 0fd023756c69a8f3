//! Where a resource stands in a pool.

ghost use Rattle.std.specs.Prelude.{◌≡◌, true, map};
ghost use Rattle.std.specs.List.{position};
ghost use Rattle.std.specs.Str.{bytes_eq};
ghost use Rattle.ticket_items.specs.Ids.{are_distinct};

use crate::id::Id;
use crate::resource::Resource;

/// Where the resource of an id stands in the pool.
pub fn place_in(pool: &[Resource], id: &Id) -> Option<usize>
    ensures { result ≡ position (λ x. bytes_eq x.id id.now) pool.now }
{
    pool.iter().position(|resource| resource.id == *id)
}

/// Where the resource of an id stands in the pool, looked for from a place on and then in front of
/// it.
pub fn place_in_from(pool: &[Resource], id: &Id, from: usize) -> Option<usize>
    requires { are_distinct (map (λ x. x.id) pool.now) ≡ true }
    ensures { result ≡ position (λ x. bytes_eq x.id id.now) pool.now }
{
    let (front, behind) = pool.split_at(from.min(pool.len()));
    match place_in(behind, id) {
        Some(place) => Some(front.len() + place),
        None => place_in(front, id),
    }
}
