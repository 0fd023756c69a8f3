//! Rows in boxes of their own, so that none moves where another is put between them.

ghost use Rattle.std.specs.Prelude.{◌≡◌, IfOk};
ghost use Rattle.ticket_rows.specs.Boxed.{contents};

use std::alloc::{AllocError, Global};
use ticket_items::{Duplicate, NodeRow};

/// A row in a box.
fn in_box(alloc: Global, row: NodeRow) -> Result<Box<NodeRow>, AllocError>
    ensures { IfOk result (λ made. made.value ≡ row) }
{
    let made = Box::new(alloc, row)?;
    Ok(made)
}

/// Each row in a box.
pub fn in_boxes(alloc: Global, rows: Vec<NodeRow>) -> Result<Vec<Box<NodeRow>>, AllocError>
    ensures { IfOk result (λ boxes. contents boxes.items ≡ rows.items) }
{
    let mut boxes = Vec::with_capacity(alloc, rows.len())?;
    for row in rows {
        boxes.push(in_box(alloc, row)?)?;
    }
    Ok(boxes)
}

/// Equal copies of the rows, each in a box.
pub fn copies_in_boxes(
    alloc: Global,
    rows: &[Box<NodeRow>],
) -> Result<Vec<Box<NodeRow>>, AllocError>
    ensures { IfOk result (λ boxes. contents boxes.items ≡ contents rows.now) }
{
    let mut boxes = Vec::with_capacity(alloc, rows.len())?;
    for row in rows {
        boxes.push(in_box(alloc, row.copy(alloc)?)?)?;
    }
    Ok(boxes)
}
