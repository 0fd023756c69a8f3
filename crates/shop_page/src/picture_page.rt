//! The page of one controller.

ghost use Rattle.std.specs.Prelude.{◌≡◌, string_bytes, IfOk};
ghost use Rattle.shop_page.specs.Cells as cells;

use crate::cells::head;
use std::alloc::{AllocError, Global};

/// The page of a controller, as its file is named in what is served: its picture, which is SVG, and
/// a way back to all.
pub fn controller_page(alloc: Global, controller: &str, picture: &str) -> Result<String, AllocError>
    // Proved: The page of a controller is its picture, whole, between head and foot.
    ensures { IfOk result (λ page. string_bytes page
        ≡ cells.controller_page controller.now picture.now) }
{
    let head = head(alloc, controller)?;
    format!(in alloc;
        "{head}<header><a href=\"/\">All controllers</a></header>\n{picture}</body></html>\n"
    )
}
