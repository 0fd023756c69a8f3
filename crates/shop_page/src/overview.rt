//! The page of all controllers.

ghost use Rattle.std.specs.Prelude.{◌≡◌, string_bytes, IfOk};
ghost use Rattle.shop_page.specs.Page as pages;

use crate::cells::head;
use crate::open_work::OpenWork;
use crate::picked::{late_of, refused_works};
use crate::shop::Shop;
use crate::tables::table;
use job_picture::{escaped_text, moment_text};
use std::alloc::{AllocError, Global};

/// A figure that is large.
fn figure(alloc: Global, count: usize, words: &str) -> Result<String, AllocError>
    ensures { IfOk result (λ made. string_bytes made ≡ pages.figure count words.now) }
{
    format!(in alloc; "<span class=\"f\">{count}{words}</span>")
}

/// How many works are out, are late, were refused and are closed.
fn work_figures(
    alloc: Global,
    out: usize,
    late: usize,
    refused: usize,
    closed: usize,
) -> Result<String, AllocError>
    ensures { IfOk result (λ made. string_bytes made
        ≡ pages.work_figures out late refused closed) }
{
    let out = figure(alloc, out, " out")?;
    let late = figure(alloc, late, " without an answer")?;
    let refused = figure(alloc, refused, " refused")?;
    let closed = figure(alloc, closed, " closed")?;
    format!(in alloc; "{out}{late}{refused}{closed}")
}

/// How many controllers there are, and at what moment.
fn shop_figures(
    alloc: Global,
    controllers: usize,
    unread: usize,
    now: u64,
) -> Result<String, AllocError>
    ensures { IfOk result (λ made. string_bytes made
        ≡ pages.shop_figures controllers unread now) }
{
    let moment = moment_text(alloc, now)?;
    format!(in alloc;
        "<span>{controllers} controllers, {unread} files that hold none; {moment}</span>"
    )
}

/// The path of a shop, and these figures.
fn banner(alloc: Global, path: &str, works: &str, shop: &str) -> Result<String, AllocError>
    ensures { IfOk result (λ made. string_bytes made
        ≡ pages.banner path.now works.now shop.now) }
{
    let path = escaped_text(alloc, path)?;
    format!(in alloc; "<header><h1>{path}</h1><p>{works}{shop}</p></header>\n")
}

/// All figures of a shop.
fn figures(
    alloc: Global,
    shop: &Shop<'_>,
    out: usize,
    late: usize,
    refused: usize,
) -> Result<String, AllocError>
    ensures { IfOk result (λ made. string_bytes made
        ≡ pages.figures shop.entry.now out late refused) }
{
    let of_works = work_figures(alloc, out, late, refused, shop.closed)?;
    let of_shop = shop_figures(alloc, shop.controllers, shop.unread, shop.now)?;
    banner(alloc, shop.path, of_works.as_str(), of_shop.as_str())
}

/// The page of a shop, with tables of these works.
fn page_of(
    alloc: Global,
    shop: &Shop<'_>,
    works: &[OpenWork<'_>],
    late: &[OpenWork<'_>],
    refused: &[OpenWork<'_>],
) -> Result<String, AllocError>
    ensures { IfOk result (λ page. string_bytes page
        ≡ pages.page_of shop.entry.now works.now late.now refused.now) }
{
    let head = head(alloc, shop.path)?;
    let figures = figures(alloc, shop, works.len(), late.len(), refused.len())?;
    let refused = table(alloc, "Refused", refused, shop.now)?;
    let late = table(alloc, "Without an answer", late, shop.now)?;
    let out = table(alloc, "Out", works, shop.now)?;
    format!(in alloc; "{head}{figures}{refused}{late}{out}</body></html>\n")
}

/// The page of a shop at its time: what was refused, what waits too long, and then all that is out,
/// each in the order of `works`.
pub fn shop_page(
    alloc: Global,
    shop: &Shop<'_>,
    works: &[OpenWork<'_>],
) -> Result<String, AllocError>
    // Proved: A row tells the controller, the job, the spawn, how far it is, with whom, the node,
    // its name and Status, since when, how long, and what its message was refused as, each escaped
    // as in a picture.
    // Proved: The page of a shop is one text for its time and its open work: its figures, then a
    // table of what was refused, one of what waits too long for an answer, and one of all that is
    // out. Each work has its own row in a table, once, in order, as far as a table has rows; how
    // many are left out is told.
    ensures { IfOk result (λ page. string_bytes page ≡ pages.page shop.entry.now works.now) }
{
    let late = late_of(alloc, works, shop.now)?;
    let refused = refused_works(alloc, works)?;
    page_of(alloc, shop, works, late.as_slice(), refused.as_slice())
}
