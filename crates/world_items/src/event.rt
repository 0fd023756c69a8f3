use crate::stop::Stop;
use crate::what::What;

/// Something that happens in a shop.
#[derive(Drop)]
pub struct Event {
    pub what: What,
    /// When, in seconds since 1970.
    pub at: u64,
    /// Where the controller stops at that. It says nothing of a restart.
    pub stop: Stop,
}
