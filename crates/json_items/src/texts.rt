pub mod any_text;
pub mod id_form;
pub mod name_form;
pub mod spawn_id_form;
pub mod text_form;
