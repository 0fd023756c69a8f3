use shop_folder::{FolderFile, Lies, PEERS, file_for, files_in, in_folder, owner_of};
use std::alloc::{AllocError, Global};
use std::fs;
use std::test::Fail;
use stored_state::Addressee;

/// The path of the file that a message leads to, and nothing where it leads to none.
fn leads_to(alloc: Global, lies: Lies, receiver: &str, sender: &str) -> Result<String, AllocError> {
    match file_for(alloc, "shop", lies, receiver, sender)? {
        Some(path) => Ok(path),
        None => Ok(String::new(alloc)),
    }
}

/// What lies under the receiver's name, who the message is for and whose it is, and the file to
/// which it leads, if it leads to one.
static LEADS: [(Lies, &'static str, &'static str, &'static str); 11] = [
    (Lies::File, "press", "job-17", "shop/press"),
    (Lies::File, "press", "job.17", "shop/press"),
    (Lies::File, "press.new", "job-17", ""),
    (Lies::File, PEERS, "job-17", ""),
    (Lies::File, "..", "job-17", ""),
    (Lies::File, "bind/job-17", "job-17", ""),
    (Lies::Folder, "bind", "job-17", "shop/bind/job-17"),
    (Lies::Folder, "bind", "job.17", ""),
    (Lies::Folder, "bind", "../press", ""),
    (Lies::Folder, "bind.new", "job-17", ""),
    (Lies::Nothing, "press", "job-17", ""),
];

/// Whether the message of a row leads there.
fn leads_there(
    alloc: Global,
    row: &(Lies, &'static str, &'static str, &'static str),
) -> Result<bool, AllocError> {
    let found = leads_to(alloc, row.0, row.1, row.2)?;
    Ok(found.as_str() == row.3)
}

#[test]
fn a_message_leads_to_a_file(rt: HostRuntime) -> Result<(), Fail> {
    for (number, row) in LEADS.iter().enumerate() {
        assert!(rt; leads_there(rt.alloc(), row)?, "row {number}");
    }
    Ok(())
}

/// The two names of a controller that is addressed: `*` stands for any.
fn names_of<'a>(owner: Addressee<'a>) -> (&'a str, &'a str) {
    match owner {
        Addressee::Any => ("*", "*"),
        Addressee::Named(name) => (name, "*"),
        Addressee::WorkerOf(name, master) => (name, master),
    }
}

/// The path of a file, and the names of the controller that it is for.
static OWNED: [(&'static str, &'static str, &'static str); 8] = [
    ("owned/press", "press", "*"),
    ("owned/press.new", "", "*"),
    ("owned/peers.json", "", "*"),
    ("owned/bind/job-17", "bind", "job-17"),
    ("owned/bind/job.17", "bind", ""),
    ("owned/bind.new/job-17", "", "job-17"),
    ("owned/bind/deep/job-17", "*", "*"),
    ("press", "*", "*"),
];

/// Whether the file of a path is for the controller of these names.
fn is_for(rt: &HostRuntime, path: &str, name: &str, master: &str) -> Result<bool, AllocError> {
    let owner = owner_of(rt, rt.alloc(), path)?;
    Ok(names_of(owner) == (name, master))
}

/// Makes a folder with a peers' file.
fn make_served(rt: &HostRuntime, folder: &str) -> Result<(), Fail> {
    let peers = in_folder(rt.alloc(), folder, PEERS)?;
    fs::write(rt, peers.as_str(), "{}")?;
    Ok(())
}

#[test]
fn a_file_is_for_the_controller_of_its_name(rt: HostRuntime) -> Result<(), Fail> {
    let _ = fs::remove_dir_all(&rt, "owned");
    fs::create_dir(&rt, "owned")?;
    assert!(rt;
        is_for(&rt, "owned/bind/job-17", "*", "*")?,
        "before it has a peers' file"
    );
    make_served(&rt, "owned")?;
    for row in OWNED.iter() {
        let (path, name, master) = *row;
        assert!(rt; is_for(&rt, path, name, master)?, "{path}");
    }
    let _ = fs::remove_dir_all(&rt, "owned");
    Ok(())
}

/// Whether the file in this place has this path, and is for the controller of these names.
fn is_at(files: &[FolderFile], place: usize, path: &str, name: &str, master: &str) -> bool {
    match files.get(place) {
        Some(file) => {
            file.path.as_str() == path && names_of(file.owner.as_addressee()) == (name, master)
        }
        None => false,
    }
}

static FOLDERS: [&'static str; 4] = [
    "listed",
    "listed/bind",
    "listed/bind/deep",
    "listed/cut.old",
];

static FILES: [&'static str; 10] = [
    "listed/press",
    "listed/mis",
    "listed/mis.new",
    "listed/2nd",
    "listed/peers.json",
    "listed/bind/job-2",
    "listed/bind/job-1",
    "listed/bind/job-1.new",
    "listed/bind/deep/job-1",
    "listed/cut.old/job-1",
];

/// The files of the folder, in their order, each with the names of the controller that it is for.
static LISTED: [(&'static str, &'static str, &'static str); 4] = [
    ("listed/bind/job-1", "bind", "job-1"),
    ("listed/bind/job-2", "bind", "job-2"),
    ("listed/mis", "mis", "*"),
    ("listed/press", "press", "*"),
];

/// Makes the folder with all that lies there.
fn make_listed(rt: &HostRuntime) -> Result<(), Fail> {
    for folder in FOLDERS.iter() {
        fs::create_dir(rt, folder)?;
    }
    for path in FILES.iter() {
        fs::write(rt, path, "{}")?;
    }
    Ok(())
}

/// Whether these are the files of the folder.
fn are_listed(files: &[FolderFile]) -> bool {
    for (place, row) in LISTED.iter().enumerate() {
        let (path, name, master) = *row;
        if !is_at(files, place, path, name, master) {
            return false;
        }
    }
    files.len() == LISTED.len()
}

#[test]
fn a_folder_has_these_files(rt: HostRuntime) -> Result<(), Fail> {
    let _ = fs::remove_dir_all(&rt, "listed");
    make_listed(&rt)?;
    let found = files_in(&rt, rt.alloc(), "listed")?;
    assert!(rt; are_listed(found.as_slice()), "in this order");
    let _ = fs::remove_dir_all(&rt, "listed");
    Ok(())
}
