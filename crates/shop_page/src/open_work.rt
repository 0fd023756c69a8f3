use crate::delivery::Delivery;
use job_list::Work;
use ticket_items::Id;

/// After how many seconds without an answer a message waits too long: by then its house was tried
/// several times.
pub const LONG: u64 = 60;

/// Open work of a controller, and how its message fares.
#[derive(Clone, Copy)]
pub struct OpenWork<'a> {
    /// The controller, as its file is named in what is served.
    pub controller: &'a str,
    /// The controller's own name.
    pub name: &'a Id,
    pub work: &'a Work,
    pub delivery: Delivery,
}

impl OpenWork<'_> {
    ghost use Rattle.std.specs.Prelude.{◌≡◌};
    ghost use Rattle.shop_page.specs.Delays as delays;

    /// The number of the refusal that its message was refused for, if it was.
    pub fn refusal(&self) -> Option<u16>
        ensures { result ≡ delays.refusal_of self.now.delivery }
    {
        match self.delivery {
            Delivery::Refused(number) => Some(number),
            Delivery::Unknown | Delivery::Waits | Delivery::Taken => None,
        }
    }

    /// Whether its message has no answer yet, at a time in seconds since 1970, and waits too long.
    pub fn waits_long(&self, now: u64) -> bool
        // Proved: A message waits too long where it has no answer after 60 seconds; one that was
        // refused has its refusal's number.
        // By `OpenWork::refusal`.
        ensures { result ≡ delays.is_late now self.now }
    {
        match self.delivery {
            Delivery::Waits => now.saturating_sub(self.work.at) >= LONG,
            Delivery::Unknown | Delivery::Taken | Delivery::Refused(_) => false,
        }
    }
}
