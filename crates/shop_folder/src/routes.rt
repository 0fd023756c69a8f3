//! The files of controllers.

ghost use Rattle.std.specs.Prelude.{◌≡◌, string_bytes, IfOk};
ghost use Rattle.std.specs.Option.{option_map};
ghost use Rattle.shop_folder.specs.Routes as routes;

use crate::lies::Lies;
use crate::names::is_file_name;
use std::alloc::{AllocError, Global};

/// The path of a name in a folder.
pub fn in_folder(alloc: Global, folder: &str, name: &str) -> Result<String, AllocError>
    ensures { IfOk result (λ path. string_bytes path ≡ routes.in_folder folder.now name.now) }
{
    let mut path = String::from_str(alloc, folder)?;
    path.push_str("/")?;
    path.push_str(name)?;
    Ok(path)
}

/// The path of a sender's file in the folder of a receiver.
pub(crate) fn in_receivers(
    alloc: Global,
    folder: &str,
    receiver: &str,
    sender: &str,
) -> Result<String, AllocError>
    ensures { IfOk result (λ path. string_bytes path
        ≡ routes.in_folder (routes.in_folder folder.now receiver.now) sender.now) }
{
    let own = in_folder(alloc, folder, receiver)?;
    in_folder(alloc, own.as_str(), sender)
}

/// The path of the file of the controller of a folder that a message to a receiver from a sender is
/// for, where this lies under the receiver's name: the file of that name; or, where that is the
/// folder of a worker for many masters, the file of the sender's name in it. None where the one
/// that is wanted isn't a file name.
pub fn file_for(
    alloc: Global,
    folder: &str,
    lies: Lies,
    receiver: &str,
    sender: &str,
) -> Result<Option<String>, AllocError>
    // Proved: A message leads to the file of its receiver's name; or in the folder of that name to
    // the file of its sender's; or to none, where nothing lies there or the name may not name a
    // file.
    // By `in_folder`.
    ensures { IfOk result (λ file. option_map (λ path. string_bytes path) file
        ≡ routes.file_for folder.now lies receiver.now sender.now) }
{
    if !is_file_name(receiver) {
        return Ok(None);
    }
    match lies {
        Lies::File => Ok(Some(in_folder(alloc, folder, receiver)?)),
        Lies::Folder => {
            if !is_file_name(sender) {
                return Ok(None);
            }
            Ok(Some(in_receivers(alloc, folder, receiver, sender)?))
        }
        Lies::Nothing => Ok(None),
    }
}
