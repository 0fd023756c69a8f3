//! The files of a folder, as they lie there.

ghost use Rattle.std.specs.Prelude.{◌≡◌, true, All, IfOk, OnOk};
ghost use Rattle.shop_folder.specs.Files.{IsNamed, LiesIn};
ghost use Rattle.shop_folder.specs.Names.{is_file_name};

use crate::folder_file::FolderFile;
use crate::lies::Lies;
use crate::names::is_file_name;
use crate::owner::Owner;
use crate::routes::{in_folder, in_receivers};
use std::alloc::{Alloc, AllocError, Global};
use std::rt::Files;
use std::{fs, io};
use ticket_items::Id;

/// Puts a name behind others.
fn push_name(alloc: Global, names: &mut Vec<String>, name: &str) -> Result<(), AllocError>
    requires name { is_file_name name.now ≡ true }
    requires others { All IsNamed names.old.items }
    ensures { OnOk result (All IsNamed names.new.items) }
{
    names.push(String::from_str(alloc, name)?)?;
    Ok(())
}

/// The names in a folder that may be those of controllers, in the order of their bytes.
fn names_in<R: Files + Alloc + Clone + Drop>(
    rt: &R,
    alloc: Global,
    folder: &str,
) -> io::Result<Vec<String>>
    ensures { IfOk result (λ names. All IsNamed names.items) }
{
    let mut names = Vec::new(alloc);
    for entry in fs::read_dir(rt, folder)? {
        let entry = entry?;
        let name = entry.file_name();
        if is_file_name(name) {
            push_name(alloc, &mut names, name)?;
        }
    }
    names.sort()?;
    Ok(names)
}

/// Puts the file of a worker for a master behind others of a folder, if one lies there.
fn push_worker<R: Files>(
    rt: &R,
    alloc: Global,
    folder: &str,
    worker: &str,
    master: &str,
    found: &mut Vec<FolderFile>,
) -> io::Result<()>
    requires worker { is_file_name worker.now ≡ true }
    requires master { is_file_name master.now ≡ true }
    requires others { All (LiesIn folder.now) found.old.items }
    ensures { OnOk result (All (LiesIn folder.now) found.new.items) }
{
    let path = in_receivers(alloc, folder, worker, master)?;
    if Lies::at(rt, path.as_str()) != Lies::File {
        return Ok(());
    }
    let owner = Owner::WorkerOf(
        Id::from_valid(alloc, worker)?,
        Id::from_valid(alloc, master)?,
    );
    found.push(FolderFile { path, owner })?;
    Ok(())
}

/// Puts the files of the workers of a name behind others of a folder: each is in the folder of that
/// name, in the file of its master's.
fn push_workers<R: Files + Alloc + Clone + Drop>(
    rt: &R,
    alloc: Global,
    folder: &str,
    worker: &str,
    found: &mut Vec<FolderFile>,
) -> io::Result<()>
    requires worker { is_file_name worker.now ≡ true }
    requires others { All (LiesIn folder.now) found.old.items }
    ensures { OnOk result (All (LiesIn folder.now) found.new.items) }
{
    let own = in_folder(alloc, folder, worker)?;
    let masters = names_in(rt, alloc, own.as_str())?;
    for master in masters.as_slice() {
        push_worker(rt, alloc, folder, worker, master.as_str(), found)?;
    }
    Ok(())
}

/// Puts what lies under a name behind others of a folder: a file, or those of a folder.
fn push_files<R: Files + Alloc + Clone + Drop>(
    rt: &R,
    alloc: Global,
    folder: &str,
    name: &str,
    found: &mut Vec<FolderFile>,
) -> io::Result<()>
    requires name { is_file_name name.now ≡ true }
    requires others { All (LiesIn folder.now) found.old.items }
    ensures { OnOk result (All (LiesIn folder.now) found.new.items) }
{
    let path = in_folder(alloc, folder, name)?;
    match Lies::at(rt, path.as_str()) {
        Lies::File => {
            let owner = Owner::Named(Id::from_valid(alloc, name)?);
            found.push(FolderFile { path, owner })?;
            Ok(())
        }
        Lies::Folder => push_workers(rt, alloc, folder, name, found),
        Lies::Nothing => Ok(()),
    }
}

/// The files of a folder, each with the controller that it is for, in the order of the names: under
/// its own name each file, and each file of a folder in it, whose name is that of the worker. Of
/// which there are, no contract says more than `Lies::at`.
pub fn files_in<R: Files + Alloc + Clone + Drop>(
    rt: &R,
    alloc: Global,
    folder: &str,
) -> io::Result<Vec<FolderFile>>
    // Proved: Each file that is found in a folder lies where its controller does: under its own
    // name, or, of a worker, under its master's in the folder of its own.
    // Not proved: which files a folder has.
    ensures { IfOk result (λ files. All (LiesIn folder.now) files.items) }
{
    let names = names_in(rt, alloc, folder)?;
    let mut found = Vec::new(alloc);
    for name in names.as_slice() {
        push_files(rt, alloc, folder, name.as_str(), &mut found)?;
    }
    Ok(found)
}
