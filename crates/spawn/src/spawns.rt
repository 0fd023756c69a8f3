pub mod by_table;
pub mod refusing;
pub mod spawning;
