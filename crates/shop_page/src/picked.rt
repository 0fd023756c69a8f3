//! Those of open work whose messages fare ill.

ghost use Rattle.std.specs.Prelude.{◌≡◌, IfOk};
ghost use Rattle.std.specs.List.{filter};
ghost use Rattle.shop_page.specs.Delays as delays;

use crate::open_work::OpenWork;
use std::alloc::{AllocError, Global};

/// Those whose messages were refused.
pub(crate) fn refused_works<'a>(
    alloc: Global,
    works: &[OpenWork<'a>],
) -> Result<Vec<OpenWork<'a>>, AllocError>
    ensures { IfOk result (λ found. found.items ≡ filter delays.is_refused works.now) }
{
    let mut found = Vec::new(alloc);
    for one in works {
        if one.refusal().is_some() {
            found.push(*one)?;
        }
    }
    Ok(found)
}

/// Those whose messages wait too long for an answer, at a time in seconds since 1970.
pub(crate) fn late_of<'a>(
    alloc: Global,
    works: &[OpenWork<'a>],
    now: u64,
) -> Result<Vec<OpenWork<'a>>, AllocError>
    ensures { IfOk result (λ found. found.items ≡ filter (delays.is_late now) works.now) }
{
    let mut found = Vec::new(alloc);
    for one in works {
        if one.waits_long(now) {
            found.push(*one)?;
        }
    }
    Ok(found)
}
