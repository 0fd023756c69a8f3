//! Places in etcd: the texts `etcd://HOST:PORT/NAME`, each of which names a gateway and a key
//! there; and folders of them.
#![tactic(auto)]

mod address;
mod etcd_folder;
mod etcd_place;
mod key_name;

pub use etcd_folder::EtcdFolder;
pub use etcd_place::{EtcdPlace, is_etcd};
