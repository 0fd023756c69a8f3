pub mod at_place;
pub mod edits;
pub mod growing_edits;
pub mod known_rows;
pub mod one_row;
pub mod part_edits;
pub mod setting_edits;
mod walks;
