//! Keepers: what a controller's state is kept in, as one value of bytes.
#![tactic(auto)]

mod cut;
mod cut_keep;
mod disk;
mod draft_file;
mod draft_path;
mod failing_keep;
mod file_keep;
mod file_lock;
mod files;
mod keep;
mod keep_fault;
mod locks;
mod memory_disk;
mod memory_keep;
mod saving;
mod system_disk;

pub use cut::Cut;
pub use cut_keep::CutKeep;
pub use disk::Disk;
pub use failing_keep::FailingKeep;
pub use file_keep::FileKeep;
pub use keep::Keep;
pub use keep_fault::KeepFault;
pub use locks::Locks;
pub use memory_disk::MemoryDisk;
pub use memory_keep::MemoryKeep;
pub use saving::{load, save, save_first};
pub use system_disk::SystemDisk;
