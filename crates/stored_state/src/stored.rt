ghost use Rattle.std.specs.Prelude.{◌≡◌, ℕ, Bool, true};
ghost use Rattle.controller.specs.declared.body.Body.{Body as BodySeen};
ghost use Rattle.controller.specs.declared.message.Message.{Message};
ghost use Rattle.stored_state.specs.Resting.{is_idle, is_idle_on};

use crate::resting::rests_taken;
use controller::{Body, Controller};
use controller_form::StateForm;
use master_core::Master;
use worker_core::Worker;

/// A controller that is stored (our own). Where its reply tells that nothing changes, its state
/// stays as it was; and no step changes its name.
pub trait StoredController: Controller + StateForm {
    /// Whether a message that says this leaves it as it is, by what it would be taken as.
    ghost stays: { BodySeen → Self → Bool };

    /// Whether a message that says this leaves it as it is, taken or refused, as what it would be
    /// taken as tells. Needs no memory.
    fn stays_on(&self, body: &Body) -> bool
        // Proved: Of some messages it is known beforehand, by what they would be taken as, that
        // they change nothing, whether they are taken or refused.
        // By `StoredController::take_stays`.
        ensures { result ≡ stays body.now self.now };

    // Proved: Where the reply tells that nothing changes, nothing does.
    // By `StoredController::take_rests`.
    ghost order_rests: { (order : Self.Order) (at : ℕ) (c : Self)
        → is_idle (Self.Controller.order_step order at c).reply ≡ true
        → (Self.Controller.order_step order at c).next ≡ c };

    ghost take_rests: { (m : Message) (at : ℕ) (c : Self)
        → is_idle_on m.body (Self.Controller.take_step m at c).reply ≡ true
        → (Self.Controller.take_step m at c).next ≡ c };

    // Proved: No step changes a controller's name.
    // By `StoredController::take_names`.
    ghost order_names: { (order : Self.Order) (at : ℕ) (c : Self)
        → Self.Controller.own_name (Self.Controller.order_step order at c).next
        ≡ Self.Controller.own_name c };

    ghost take_names: { (m : Message) (at : ℕ) (c : Self)
        → Self.Controller.own_name (Self.Controller.take_step m at c).next
        ≡ Self.Controller.own_name c };

    ghost take_stays: { (m : Message) (at : ℕ) (c : Self) → stays m.body c ≡ true
        → (Self.Controller.take_step m at c).next ≡ c };
}

impl StoredController for Master {
    ghost use Rattle.stored_state.specs.Names.{master_order_names, master_take_names};
    ghost use Rattle.stored_state.specs.Rested.{master_rests, master_rests_on};
    ghost use Rattle.stored_state.specs.Rested.{master_stays, master_stays_so};

    ghost order_rests = { master_rests };

    ghost take_rests = { master_rests_on };

    ghost order_names = { master_order_names };

    ghost take_names = { master_take_names };

    ghost stays = { master_stays };

    ghost take_stays = { master_stays_so };

    fn stays_on(&self, body: &Body) -> bool {
        rests_taken(body, self.taken_as(body))
    }
}

impl StoredController for Worker {
    ghost use Rattle.stored_state.specs.Names.{worker_order_names, worker_take_names};
    ghost use Rattle.stored_state.specs.Rested.{worker_rests, worker_rests_on};
    ghost use Rattle.stored_state.specs.Rested.{worker_stays, worker_stays_so};

    ghost order_rests = { worker_rests };

    ghost take_rests = { worker_rests_on };

    ghost order_names = { worker_order_names };

    ghost take_names = { worker_take_names };

    ghost stays = { worker_stays };

    ghost take_stays = { worker_stays_so };

    fn stays_on(&self, body: &Body) -> bool {
        rests_taken(body, self.taken_as(body))
    }
}
