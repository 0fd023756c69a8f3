//! The pictures that `show` writes of a controller.

ghost use Rattle.std.specs.Prelude.{◌≡◌, IfOk};
ghost use Rattle.job_picture.specs.Picture.{picture_of};
ghost use Rattle.job_picture.specs.WorkerPicture.{worker_picture_of};

use job_picture::{push_picture, push_worker_picture};
use master_core::Master;
use std::alloc::{AllocError, Global};
use worker_core::Worker;

/// The picture of a master at a moment in seconds since 1970.
pub(crate) fn master_picture(
    alloc: Global,
    master: &Master,
    now: u64,
) -> Result<Vec<u8>, AllocError>
    ensures { IfOk result (λ text. text.items ≡ picture_of now master.now) }
{
    let mut text = Vec::new(alloc);
    push_picture(alloc, &mut text, master, now)?;
    Ok(text)
}

/// The picture of a worker at a moment in seconds since 1970.
pub(crate) fn worker_picture(
    alloc: Global,
    worker: &Worker,
    now: u64,
) -> Result<Vec<u8>, AllocError>
    ensures { IfOk result (λ text. text.items ≡ worker_picture_of now worker.now) }
{
    let mut text = Vec::new(alloc);
    push_worker_picture(alloc, &mut text, worker, now)?;
    Ok(text)
}
