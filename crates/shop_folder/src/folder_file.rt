use crate::owner::Owner;

/// A file of a folder of controllers (our own).
#[derive(Drop)]
pub struct FolderFile {
    pub path: String,
    /// The controller that it is for.
    pub owner: Owner,
}
