pub mod ancestor_form;
pub mod audit_form;
pub mod link_form;
