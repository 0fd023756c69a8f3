//! A folder of controllers, each in a file of its own name: which files it has, which of them a
//! message leads to, and which names the controller in a file has to have.
#![tactic(auto)]

mod files;
mod folder_file;
mod lies;
mod names;
mod naming;
mod owner;
mod owners;
mod place;
mod routes;

pub use files::files_in;
pub use folder_file::FolderFile;
pub use lies::Lies;
pub use names::is_file_name;
pub use naming::name_of;
pub use owner::Owner;
pub use owners::{PEERS, owner_of, peers_of};
pub use place::Place;
pub use routes::{file_for, in_folder};
