//! Tables of open work.

ghost use Rattle.std.specs.Prelude.{◌≡◌, string_bytes, take, IfOk};
ghost use Rattle.shop_page.specs.Page as pages;

use crate::open_work::OpenWork;
use crate::rows::row;
use std::alloc::{AllocError, Global};

/// How many rows a table has at most.
const MOST_ROWS: usize = 500;

/// What stands above the rows.
const COLUMNS: &str = "<table><tr><th>Controller</th><th>Job</th><th>Spawn</th><th>Phase</th>\
    <th>With</th><th>Node</th><th>Name</th><th>Status</th><th>Since</th><th>For</th>\
    <th>Message</th></tr>\n";

/// What stands above a table of so many works.
fn heading(alloc: Global, words: &str, count: usize) -> Result<String, AllocError>
    ensures { IfOk result (λ made. string_bytes made ≡ pages.heading words.now count) }
{
    format!(in alloc; "<h2>{words} ({count})</h2>\n")
}

/// How many works have no row, in words.
fn more_words(alloc: Global, more: usize) -> Result<String, AllocError>
    ensures { IfOk result (λ made. string_bytes made ≡ pages.more_words more) }
{
    format!(in alloc; "<p>and {more} more, which /list.json has</p>\n")
}

/// How many of so many works have no row where a table has `most`; nothing where each has one.
fn rows_left_out(alloc: Global, most: usize, count: usize) -> Result<String, AllocError>
    ensures { IfOk result (λ made. string_bytes made ≡ pages.rows_left_out most count) }
{
    if count <= most {
        return Ok(String::new(alloc));
    }
    more_words(alloc, count - most)
}

/// The row of each work, at a time in seconds since 1970.
fn each_row(alloc: Global, works: &[OpenWork<'_>], now: u64) -> Result<String, AllocError>
    ensures { IfOk result (λ made. string_bytes made ≡ pages.each_row now works.now) }
{
    let mut rows = String::new(alloc);
    for one in works {
        rows.push_str(row(alloc, one, now)?.as_str())?;
    }
    Ok(rows)
}

/// The first works, as many as a table has rows for at most.
fn first_works<'s, 'a>(works: &'s [OpenWork<'a>], most: usize) -> &'s [OpenWork<'a>]
    ensures { result.now ≡ take most works.now }
{
    if works.len() <= most {
        works
    } else {
        &works[..most]
    }
}

/// A table of work that isn't empty.
fn filled_table(
    alloc: Global,
    words: &str,
    works: &[OpenWork<'_>],
    now: u64,
) -> Result<String, AllocError>
    ensures { IfOk result (λ made. string_bytes made
        ≡ pages.filled_table words.now now works.now) }
{
    let heading = heading(alloc, words, works.len())?;
    let rows = each_row(alloc, first_works(works, MOST_ROWS), now)?;
    let left_out = rows_left_out(alloc, MOST_ROWS, works.len())?;
    format!(in alloc; "{heading}{COLUMNS}{rows}</table>\n{left_out}")
}

/// A table of work at a time in seconds since 1970, with how many there are above it; nothing of
/// none.
pub(crate) fn table(
    alloc: Global,
    words: &str,
    works: &[OpenWork<'_>],
    now: u64,
) -> Result<String, AllocError>
    ensures { IfOk result (λ made. string_bytes made ≡ pages.table words.now now works.now) }
{
    if works.is_empty() {
        return Ok(String::new(alloc));
    }
    filled_table(alloc, words, works, now)
}
