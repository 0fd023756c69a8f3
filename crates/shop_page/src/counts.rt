ghost use Rattle.std.specs.Prelude.{◌≡◌, ◌<◌, Some, IfSome};
ghost use Rattle.shop_page.specs.Counted as counted;

/// The statuses that are counted one by one: those that `serve` answers with, and 499 of those who
/// went before their response.
pub const STATUSES: [u16; 11] = [200, 400, 403, 404, 405, 411, 413, 499, 500, 501, 503];

/// The place of a status in `STATUSES`, if it is there.
fn place_of(status: u16) -> Option<usize>
    ensures place { result ≡ counted.place_of status }
    ensures within { IfSome result (λ place. place < 11) }
{
    STATUSES.iter().position(|known| *known == status)
}

/// Counts one more in a place.
fn add_one(counts: &mut [u64; 11], place: usize)
    requires { place < 11 }
    ensures { counts.new ≡ counted.with_one (Some place) counts.old }
{
    counts[place] = counts[place].saturating_add(1);
}

/// What a server counts, from its start on.
#[derive(Clone, Copy)]
pub struct Counts {
    /// The requests that were answered, by the places of their statuses in `STATUSES`.
    pub requests: [u64; 11],
    /// The turns of controllers in which steps were made.
    pub turns: u64,
    /// How many milliseconds they took, saves among them.
    pub turns_time: u64,
    pub saves: u64,
}

impl Counts {
    ghost use Rattle.std.specs.Prelude.{◌≡◌, replicate};
    ghost use Rattle.shop_page.specs.Counted as counted;

    /// Nothing so far.
    pub fn new() -> Counts
        ensures { result ≡ record {
          requests = replicate 11 0;
          turns = 0;
          turns_time = 0;
          saves = 0;
        } }
    {
        Counts {
            requests: [0; 11],
            turns: 0,
            turns_time: 0,
            saves: 0,
        }
    }

    /// Counts a request that was answered with this status.
    pub fn note_status(&mut self, status: u16)
        ensures { self.new ≡ counted.with_status status self.old }
    {
        if let Some(place) = place_of(status) {
            add_one(&mut self.requests, place);
        }
    }

    /// Counts a turn of a controller that took so many milliseconds.
    pub fn note_turn(&mut self, time: u64)
        ensures { self.new ≡ counted.with_turn time self.old }
    {
        self.turns = self.turns.saturating_add(1);
        self.turns_time = self.turns_time.saturating_add(time);
    }

    /// Counts a save.
    pub fn note_save(&mut self)
        ensures { self.new ≡ counted.with_save self.old }
    {
        self.saves = self.saves.saturating_add(1);
    }
}
