ghost use Rattle.std.specs.Prelude.{◌≡◌, ◌++◌, true, IfErr, IfOk, OnOk};
ghost use Rattle.file_commands.specs.Listing as listing;

use crate::asked::ListRequest;
use crate::lists::Lists;
use crate::opening::snapshot_of;
use keepers::Locks;
use shop_folder::FolderFile;
use std::alloc::{AllocError, Global};
use stored_state::Snapshot;
use streams::{Fault, Refused};

/// The lists of files of a folder, what is noted of those that aren't listed, and whether there is
/// any such.
#[derive(Drop)]
pub(crate) struct FileLists {
    pub(crate) lists: Lists,
    pub(crate) notes: Vec<u8>,
    pub(crate) refused: bool,
}

/// What a file of a folder holds, where that is the controller that it is for. Refuses as
/// `snapshot_of` does, and as `Device` `OtherName`.
fn own_snapshot<R: Locks>(rt: &R, alloc: Global, file: &FolderFile) -> Result<Snapshot, Fault>
    ensures ok { IfOk result (λ snapshot. listing.IsOwn file.now snapshot.controller) }
    ensures refused { IfErr result (listing.IsNotOwn file.now) }
{
    let snapshot = snapshot_of(rt, alloc, file.path.as_str())?;
    if file.owner.as_addressee().is(snapshot.controller()) {
        return Ok(snapshot);
    }
    drop(snapshot);
    Err(Fault::Device(Refused::OtherName))
}

/// Notes why a file isn't listed.
#[tactic(auto, unfolding(crate::specs::Listing::unlisted_note))]
fn push_note(
    alloc: Global,
    notes: &mut Vec<u8>,
    file: &FolderFile,
    fault: Fault,
) -> Result<(), AllocError>
    ensures { OnOk result (notes.new.items
        ≡ notes.old.items ++ listing.unlisted_note file.now fault) }
{
    notes.extend_from_slice(file.path.as_bytes())?;
    notes.extend_from_slice(b": ")?;
    notes.extend_from_slice(fault.line().as_bytes())
}

impl FileLists {
    ghost use Rattle.std.specs.Prelude.{◌≡◌, [], false, OnOk};
    ghost use Rattle.file_commands.specs.Listing as listing;

    /// That of no file.
    pub(crate) fn new(alloc: Global) -> FileLists
        ensures first { result.lists.first.items ≡ [] }
        ensures rest { result.lists.rest.items ≡ [] }
        ensures notes { result.notes.items ≡ [] }
        ensures refused { result.refused ≡ false }
    {
        FileLists {
            lists: Lists::new(alloc),
            notes: Vec::new(alloc),
            refused: false,
        }
    }

    /// Lists the controller in a file of a folder, or notes why it isn't listed.
    pub(crate) fn push<R: Locks>(
        &mut self,
        rt: &R,
        alloc: Global,
        file: &FolderFile,
        asked: ListRequest,
    ) -> Result<(), AllocError>
        ensures { OnOk result ((came : listing.Came) × listing.IsOf file.now came
            × listing.Adds asked file.now came self.old self.new) }
    {
        match own_snapshot(rt, alloc, file) {
            Ok(snapshot) => {
                self.lists.push(alloc, snapshot.controller(), asked)?;
                Ok(())
            }
            Err(fault) => {
                push_note(alloc, &mut self.notes, file, fault)?;
                self.refused = true;
                Ok(())
            }
        }
    }
}
