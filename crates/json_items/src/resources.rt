pub mod attrs_form;
pub mod resource_form;
pub mod shown_form;
