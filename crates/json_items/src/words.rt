pub mod number_form;
pub mod spawn_status_form;
pub mod switch_form;
pub mod usage_form;
