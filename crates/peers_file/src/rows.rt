//! The rows of a table.

ghost use Rattle.std.specs.Prelude.{◌≡◌, IfOk};
ghost use Rattle.json_source.specs.Read.{Gives, lent_pairs};
ghost use Rattle.peers_file.specs.Table as tables;

use crate::destination::Destination;
use crate::pattern::Pattern;
use std::alloc::{AllocError, Global};
use ticket_items::Refusal;

/// The row that two texts are.
fn row_of(
    alloc: Global,
    pattern: &str,
    url: &str,
) -> Result<Option<(Pattern, Destination)>, AllocError>
    ensures { IfOk result (λ row. row ≡ tables.row_in (pattern.now, url.now)) }
{
    let Some(pattern) = Pattern::of(alloc, pattern)? else {
        return Ok(None);
    };
    match Destination::of(alloc, url)? {
        Some(destination) => Ok(Some((pattern, destination))),
        None => Ok(None),
    }
}

/// The rows that pairs of texts are. Refuses `NotProfile` where one is none, and `Memory`.
pub(crate) fn rows_of(
    alloc: Global,
    pairs: &[(&str, &str)],
) -> Result<Vec<(Pattern, Destination)>, Refusal>
    ensures { Gives (λ rows. rows.items) result (tables.rows_in (lent_pairs pairs.now)) }
{
    let mut rows = Vec::with_capacity(alloc, pairs.len())?;
    for (pattern, url) in pairs {
        match row_of(alloc, pattern, url)? {
            Some(row) => rows.push(row)?,
            None => return Err(Refusal::NotProfile),
        }
    }
    Ok(rows)
}
