pub mod found_members;
pub mod member;
