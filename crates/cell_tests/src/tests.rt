mod answers;
mod holders;
mod kept_cells;
mod listings;
mod places;
mod requests;
mod responses;
