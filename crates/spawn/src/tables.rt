pub mod holder_source;
pub mod holders;
pub mod holding;
pub mod marking;
pub mod table;
