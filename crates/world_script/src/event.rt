//! The events of a script.

ghost use Rattle.std.specs.Prelude.{◌≡◌, ◌||◌};
ghost use Rattle.world_script.specs.EventForm as forms;

use crate::stop_word::stop_under;
use crate::what::find_what;
use json_items::{FormIn, Validation, number_under};
use json_source::Source;
use std::alloc::Global;
use ticket_tree::Refusal;
use world_items::{Event, Stop};

/// The shop that something happens in.
#[derive(Drop)]
pub struct InShop<'a> {
    /// The master's name.
    pub master: &'a str,
    /// Whether its controllers may stop.
    pub stops: bool,
}

/// Whether a stop may be, in a shop of which controllers may stop or not.
fn may_be(stop: Stop, stops: bool) -> bool
    ensures { result ≡ (stops || forms.is_run stop) }
{
    stops || stop == Stop::Run
}

impl FormIn<InShop<'_>> for Event {
    ghost use Rattle.world_script.specs.EventForm as forms;

    ghost form_in = { λ shop. forms.event_in shop.stops shop.master.now };

    ghost names_valid = { forms.event_has_names };

    ghost texts_valid = { forms.event_has_texts };

    #[tactic(auto, unfolding(crate::specs::EventForm::event_form))]
    fn find_in<S: Source>(
        alloc: Global,
        value: &S,
        shop: &InShop<'_>,
    ) -> Result<Validation<Event>, Refusal> {
        let at = number_under(value, "At").ok_or(Refusal::NotProfile)?;
        let stop = stop_under(value).ok_or(Refusal::NotProfile)?;
        if !may_be(stop, shop.stops) {
            return Err(Refusal::NotProfile);
        }
        let what = find_what(alloc, shop.master, value)?;
        Ok(what.map(|what| Event { what, at, stop }))
    }
}
