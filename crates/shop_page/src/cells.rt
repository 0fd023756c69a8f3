//! Parts of a page.

ghost use Rattle.std.specs.Prelude.{◌≡◌, string_bytes, IfOk};
ghost use Rattle.shop_page.specs.Cells as cells;

use crate::style::STYLE;
use job_picture::escaped_text;
use std::alloc::{AllocError, Global};

/// A cell of a row, with a text that is no markup.
pub(crate) fn cell(alloc: Global, text: &str) -> Result<String, AllocError>
    ensures { IfOk result (λ made. string_bytes made ≡ cells.cell text.now) }
{
    let text = escaped_text(alloc, text)?;
    format!(in alloc; "<td>{text}</td>")
}

/// A cell that leads to the page of a controller.
pub(crate) fn link_cell(alloc: Global, controller: &str) -> Result<String, AllocError>
    ensures { IfOk result (λ made. string_bytes made ≡ cells.link_cell controller.now) }
{
    let name = escaped_text(alloc, controller)?;
    format!(in alloc; "<td><a href=\"/{name}\">{name}</a></td>")
}

/// What stands above all else on a page with this title.
pub(crate) fn head(alloc: Global, title: &str) -> Result<String, AllocError>
    ensures { IfOk result (λ made. string_bytes made ≡ cells.head title.now) }
{
    let title = escaped_text(alloc, title)?;
    format!(in alloc;
        "<!DOCTYPE html>\n<html lang=\"en\"><head><meta charset=\"utf-8\">\
        <meta http-equiv=\"refresh\" content=\"5\">\
        <meta name=\"viewport\" content=\"width=device-width\">\
        {STYLE}<title>{title}</title></head><body>\n"
    )
}
