//! What of the controllers' parts is out, where it goes, and what is to be done so that it goes.

ghost use Rattle.std.specs.Prelude.{◌≡◌, ◌<◌, ◌≤◌, ℕ, [], None, false, length, IfOk, IfSome};
ghost use Rattle.std.specs.Prelude.{OnOk, Some, slice_get, string_bytes};
ghost use Rattle.std.specs.HashMap.{get_by_text};
ghost use Rattle.courier.specs.Table.{flies_at};
ghost use Rattle.slab.specs.Slab.{get};
ghost use Rattle.stored_state.specs.Outgoing.{out_of};
ghost use Rattle.server_post.specs.Lines.{IsLineOf, IsPaired, texts_of};
ghost use Rattle.server_post.specs.Looks.{SeesController};
ghost use Rattle.server_post.specs.Orders.{SendsFlight, resend_text};

use crate::own::{Own, Parcel, Task};
use crate::post::Post;
use deliveries::Flight;
use peers_file::Destination;
use std::alloc::{AllocError, Global};
use stored_state::AnyController;
use ticket_items::{Id, SpawnId};

/// The order to send the part of a spawn once more.
fn resend_text(alloc: Global, spawn: SpawnId) -> Result<Vec<u8>, AllocError>
    ensures { IfOk result (λ text. text.items ≡ resend_text spawn) }
{
    let number = spawn.number();
    let text = format!(in alloc; "{{\"Order\":\"Resend\",\"SpawnID\":\"S{number}\"}}")?;
    Ok(text.into_bytes())
}

impl Post {
    /// The number of the destination of a name, if it has one.
    fn line_of(&mut self, alloc: Global, name: &Id, now: u64) -> Result<Option<usize>, AllocError>
        ensures there { IfOk result (λ found. IfSome found (λ line.
            line < length self.new.deliveries.destinations)) }
        ensures stay { length self.old.deliveries.destinations
            ≤ length self.new.deliveries.destinations }
        ensures boxes { self.new.deliveries.outboxes ≡ self.old.deliveries.outboxes }
        ensures its { IsPaired self.old.targets self.old.deliveries.destinations
            → IfOk result (λ found. IfSome found
            (IsLineOf name.now self.old.peers self.new.targets)) }
        ensures paired { IsPaired self.old.targets self.old.deliveries.destinations
            → OnOk result (IsPaired self.new.targets self.new.deliveries.destinations) }
    {
        let Some(found) = self.peers.url_of(name.as_str()) else {
            return Ok(None);
        };
        let url = format!(in alloc; "{}{}", found.authority(), found.path())?;
        match self.targets.get_index_of(url.as_str()) {
            Some(line) if line < self.deliveries.destinations() => Ok(Some(line)),
            Some(_) => Ok(None),
            None => self.add_target(alloc, url, now),
        }
    }

    /// The number of one destination more.
    fn add_target(
        &mut self,
        alloc: Global,
        url: String,
        now: u64,
    ) -> Result<Option<usize>, AllocError>
        requires { get_by_text self.old.targets (string_bytes url) ≡ None }
        ensures there { IfOk result (λ found. IfSome found (λ line.
            line < length self.new.deliveries.destinations)) }
        ensures stay { length self.old.deliveries.destinations
            ≤ length self.new.deliveries.destinations }
        ensures boxes { self.new.deliveries.outboxes ≡ self.old.deliveries.outboxes }
        ensures its { IsPaired self.old.targets self.old.deliveries.destinations
            → IfOk result (λ found. IfSome found (λ line.
            slice_get (texts_of self.new.targets) line ≡ Some (string_bytes url))) }
        ensures paired { IsPaired self.old.targets self.old.deliveries.destinations
            → OnOk result (IsPaired self.new.targets self.new.deliveries.destinations) }
    {
        let text = format!(in alloc; "http://{url}")?;
        let Some(destination) = Destination::of(alloc, text.as_str())? else {
            return Ok(None);
        };
        self.targets.reserve(1)?;
        let line = self.deliveries.add_destination(alloc, now)?;
        self.targets.insert(url, destination)?;
        Ok(Some(line))
    }

    /// The next moment at which something is to be done for what goes out.
    pub fn next_moment(&self) -> u64 {
        if !self.ready.is_empty() {
            return 0;
        }
        let mut next = self.deliveries.wake().unwrap_or(u64::MAX);
        for (_, flying) in self.calls.iter() {
            if let Some(call) = &flying.call {
                next = u64::min(next, call.deadline());
            }
        }
        next
    }

    /// What is in flight failed.
    fn fail_all(&mut self, now: u64)
        ensures idle { (line : ℕ) → flies_at self.new.deliveries.destinations line ≡ false }
        ensures rest { self.new ≡ record self.old { deliveries = self.new.deliveries } }
    {
        for line in 0..self.deliveries.destinations() {
            if self.deliveries.flies(line) {
                self.deliveries.fail_flight(line, now);
            }
        }
    }

    /// Goes on behind a round in which memory ran out: no call goes on.
    pub fn recover(&mut self, now: u64)
        // Proved: Behind a round in which memory ran out nothing is in flight and no call goes on,
        // so that whatever is out is sent again.
        // By `idle`, `calls`, `ready`.
        ensures idle { (line : ℕ) → flies_at self.new.deliveries.destinations line ≡ false }
        ensures calls { (key : ℕ) → get self.new.calls key ≡ None }
        ensures ready { self.new.ready.items ≡ [] }
    {
        self.calls.clear();
        self.ready.clear();
        self.fail_all(now);
    }

    /// Sees what a controller has out now.
    pub fn see(
        &mut self,
        alloc: Global,
        number: usize,
        controller: &AnyController,
        now: u64,
    ) -> Result<(), AllocError>
        // Proved: Behind a look at a controller no spawn that it hasn't out has progress under its
        // number, none has other progress than it had or `Waiting`, and what the others have out
        // stays.
        // Not proved: that what it has out has progress there, for each receiver that is known:
        // tests show it.
        ensures { OnOk result (SeesController number (out_of controller.now) self.old.deliveries
            self.new.deliveries) }
    {
        let all = controller.out(alloc)?;
        let mut out = Vec::with_capacity(alloc, all.len())?;
        for (spawn, name) in all {
            if let Some(line) = self.line_of(alloc, name, now)? {
                out.push((spawn, line))?;
            }
        }
        self.deliveries.look(alloc, number, out.as_slice())
    }
}

/// What is to be done so that what is in flight goes out.
pub fn send_own(alloc: Global, flight: &Flight, until: u64) -> Result<Own, AllocError>
    // Proved: So that what is in flight goes out, its controller is told to send the part of that
    // spawn once more, until this moment.
    ensures { IfOk result (SendsFlight flight.now until) }
{
    Ok(Own {
        parcel: Parcel {
            spawn: flight.spawn,
            line: flight.line,
        },
        task: Task::Send(resend_text(alloc, flight.spawn)?),
        until,
    })
}
