pub mod part_rows;
pub mod spawned_part;
