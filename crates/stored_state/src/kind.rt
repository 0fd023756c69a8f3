ghost use Rattle.std.specs.Prelude.{◌≡◌};
ghost use Rattle.stored_state.specs.Kind.{kind_in};

use json_source::Source;
use ticket_tree::Refusal;

/// What a controller is (our own).
#[derive(Clone, Copy, PartialEq, Eq)]
pub enum Kind {
    /// It owns the job's ticket.
    Master,
    /// It works on parts of its master's ticket.
    Worker,
}

/// What the controller is whose state a value is, by the member `Master` or `Worker`. Refuses
/// `NotProfile` where not exactly one of these is there (our own). Needs no memory.
pub fn kind_of<S: Source>(value: &S) -> Result<Kind, Refusal>
    ensures { result ≡ kind_in (S.content value.now) }
{
    let is_master = value.member("Master").is_some();
    let is_worker = value.member("Worker").is_some();
    match (is_master, is_worker) {
        (true, false) => Ok(Kind::Master),
        (false, true) => Ok(Kind::Worker),
        _ => Err(Refusal::NotProfile),
    }
}
