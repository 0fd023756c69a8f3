use crate::openings::shop::Shop;
use json_items::{Form, Raw, Validation, find_three};
use json_profile::RawTicket;
use json_source::Source;
use master_core::are_apart;
use std::alloc::Global;
use ticket_tree::{Id, Ids, Refusal};

/// A shop of which the ids, names and texts are valid: its ticket may be none, and two of the names
/// may be one.
#[derive(Drop)]
pub struct RawShop {
    /// The master's name.
    pub master: Id,
    /// The names of its workers.
    pub workers: Ids,
    /// What the master's ticket is built of.
    pub ticket: RawTicket,
}

impl Form for RawShop {
    ghost use Rattle.controller_form.specs.Openings.ShopForm as shops;

    ghost form = { shops.shop_form };

    ghost has_names = { shops.shop_has_names };

    ghost has_texts = { shops.shop_has_texts };

    /// What is found under the members `Master`, `Workers` and `Ticket` of a value, which may have
    /// others.
    #[tactic(auto, unfolding(crate::specs::Openings::ShopForm::shop_form), using(json_items::proofs::Tests::all_true))]
    // Proved: The beginning of a shop is found as its form says.
    fn find<S: Source>(alloc: Global, value: &S) -> Result<Validation<RawShop>, Refusal> {
        let found = find_three(alloc, value, "Master", "Workers", "Ticket")?;
        Ok(found.map(|((master, workers), ticket)| RawShop {
            master,
            workers,
            ticket,
        }))
    }
}

impl Raw for RawShop {
    ghost use Rattle.controller_form.specs.Openings.ShopForm as shops;

    type Whole = Shop;

    ghost late_fault = { shops.shop_fault };

    ghost made = { shops.shop_of };

    /// Refuses the first fault of its ticket, then `SameName` where two of the names are equal;
    /// `Memory` may come before any but what a resource shows of spawns.
    // Proved: A beginning of a shop that was found is built where nothing else is wrong.
    fn build(self, alloc: Global) -> Result<Shop, Refusal> {
        let ticket = self.ticket.build(alloc)?;
        if !are_apart(alloc, &self.master, self.workers.as_slice())? {
            return Err(Refusal::SameName);
        }
        Ok(Shop {
            master: self.master,
            workers: self.workers,
            ticket,
        })
    }
}
