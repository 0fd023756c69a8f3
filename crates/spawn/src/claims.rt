pub mod above;
pub mod apart;
pub mod claimed;
pub mod copies;
pub mod id_set;
pub mod links_outside;
