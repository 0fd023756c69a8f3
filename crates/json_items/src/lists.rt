pub mod items_form;
