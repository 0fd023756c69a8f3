pub mod good;
pub mod of_resource;
pub mod out_tables;
pub mod phase;
pub mod spawn_rec;
pub mod standing;
