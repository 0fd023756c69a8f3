ghost use Rattle.std.specs.Prelude.{◌≡◌, true, Ok, IfOk, IfSome, OnErr, OnOk, unwrap_or};
ghost use Rattle.std.specs.Option.{option_map};
ghost use Rattle.serde_json.specs.Written.{compact_text};
ghost use Rattle.json_profile.specs.ReadAs.{IsReadAs};
ghost use Rattle.controller.specs.Words.{may_be_sent};
ghost use Rattle.stored_state.specs.Cause.{led_to, step_on};
ghost use Rattle.jmf_message.specs.Decoded.{IsDecodedAs};
ghost use Rattle.stored_state.specs.Message.{message_text as text_sent};

use crate::cause::{StepInput, copy_unless_it_stays, make};
use crate::order_bytes::OrderBytes;
use crate::seat::Seat;
use crate::stored::StoredController;
use crate::storing::{controller_in, message_text};
use controller::{Outcome, Reply};
use std::alloc::{AllocError, Global};
use std::marker::Model;
use std::mem;
use streams::Refused;
use ticket_tree::{Duplicate, Id, Refusal};

/// A controller beside the text of its state, from which it is started again (our own). Beside it
/// may stand a second value of it, on which its next step is made, so that what is shown stays
/// until all is done that may fail.
#[derive(Drop)]
pub struct MemorySeat<C: StoredController> {
    controller: C,
    text: Vec<u8>,
    twin: Option<C>,
}

impl<C: StoredController> Model for MemorySeat<C> {
    ghost use Rattle.stored_state.specs.MemorySeat.{IsMemorySeat};

    ghost Value = { C };

    ghost view = { λ seat. seat.controller };

    ghost invariant = { λ seat. IsMemorySeat C.state_data C.state_read
        seat.controller seat.text.items seat.twin };
}

impl<C: StoredController> MemorySeat<C> {
    /// That of a controller, which is started from the text of its state.
    pub fn new(alloc: Global, controller: C) -> Result<MemorySeat<C>, AllocError>
        ensures { IfOk result (λ seat. seat ≡ controller) }
    {
        let mut seat = MemorySeat::without_twin(alloc, controller)?;
        seat.start_again(alloc)?;
        Ok(seat)
    }

    /// A controller beside the text of its state alone.
    pub(crate) fn without_twin(alloc: Global, controller: C) -> Result<MemorySeat<C>, AllocError>
        ensures { IfOk result (λ seat. seat ≡ controller) }
    {
        let text = controller.state_text(alloc)?;
        Ok(MemorySeat {
            controller,
            text,
            twin: None,
        })
    }

    /// The controller.
    pub fn controller(&self) -> &C
        ensures { result.now ≡ self.now }
    {
        &self.controller
    }

    /// The text of its state, which is read as it.
    pub fn text(&self) -> &[u8]
        ensures text { result.now ≡ compact_text (C.state_data self.now) }
        ensures again { IsReadAs C.state_read result.now (Ok self.now) }
    {
        self.text.as_slice()
    }

    /// What the text of its state is read as.
    fn read(&self, alloc: Global) -> Result<C, AllocError>
        ensures { IfOk result (λ controller. controller ≡ self.now) }
    {
        match controller_in(alloc, self.text.as_slice()) {
            Ok(controller) => Ok(controller),
            Err(_) => Err(AllocError),
        }
    }

    /// The controller stops, and is started again from the text of its state. The value that it was
    /// is the second one then.
    fn start_again(&mut self, alloc: Global) -> Result<(), AllocError>
        ensures { self.new ≡ self.old }
    {
        let controller = self.read(alloc)?;
        self.twin = Some(mem::replace(&mut self.controller, controller));
        Ok(())
    }

    /// The second value of the controller. Where there is none it is started again.
    fn take_twin(&mut self, alloc: Global) -> Result<C, AllocError>
        ensures same { IfOk result (λ controller. controller ≡ self.old) }
        ensures state { self.new ≡ self.old }
    {
        if self.twin.is_none() {
            self.start_again(alloc)?;
        }
        self.twin.take().ok_or(AllocError)
    }

    /// What is given out of a step by which the second value came to the next, and what it leads
    /// to: to none where it says that it leaves the controller as it was.
    fn finish_step(
        &mut self,
        alloc: Global,
        next: C,
        outcome: Outcome,
        is_same: bool,
    ) -> Result<(Option<MemorySeat<C>>, OrderBytes), AllocError>
        requires sendable { IfSome outcome.answer (λ m. may_be_sent m.body ≡ true) }
        requires same { is_same ≡ true → next ≡ self.old }
        ensures next { IfOk result (λ made. unwrap_or made.0 self.old ≡ next) }
        ensures reply { IfOk result (λ made. made.1.reply ≡ outcome.reply) }
        ensures message { IfOk result (λ made. option_map (λ b. b.items) made.1.message
            ≡ option_map text_sent outcome.answer) }
        ensures read { OnOk result
            (IfSome outcome.answer (λ m. IsDecodedAs (text_sent m) (Ok m))) }
        ensures state { self.new ≡ self.old }
    {
        let Outcome { reply, answer } = outcome;
        let text = message_text(alloc, &answer);
        drop(answer);
        let message = text?;
        if is_same {
            self.twin = Some(next);
            return Ok((None, OrderBytes { reply, message }));
        }
        let next = MemorySeat::without_twin(alloc, next)?;
        Ok((Some(next), OrderBytes { reply, message }))
    }

    /// Its step, at a time in seconds since 1970, which isn't stored yet: what it leads to, or none
    /// where it leaves the controller as it was, and what is given out.
    fn step_made(
        &mut self,
        alloc: Global,
        cause: StepInput<C::Order>,
        at: u64,
    ) -> Result<(Option<MemorySeat<C>>, OrderBytes), AllocError>
        ensures next { IfOk result (λ made. unwrap_or made.0 self.old
            ≡ (step_on C.order_step C.take_step cause at self.old).next) }
        ensures reply { IfOk result (λ made. made.1.reply
            ≡ (step_on C.order_step C.take_step cause at self.old).reply) }
        ensures message { IfOk result (λ made. option_map (λ b. b.items) made.1.message
            ≡ option_map text_sent (step_on C.order_step C.take_step cause at self.old).sent) }
        ensures read { OnOk result (IfSome
            (step_on C.order_step C.take_step cause at self.old).sent
            (λ m. IsDecodedAs (text_sent m) (Ok m))) }
        ensures state { self.new ≡ self.old }
    {
        let mut next = self.take_twin(alloc)?;
        let (outcome, is_same) = make(alloc, &mut next, cause, at)?;
        self.finish_step(alloc, next, outcome, is_same)
    }

    /// Stores what a step led to, stops, and is started again from the text of that. Where memory
    /// runs out nothing is changed.
    fn stop_after(&mut self, alloc: Global, next: Option<MemorySeat<C>>) -> Result<(), AllocError>
        ensures ok { OnOk result (self.new ≡ unwrap_or next self.old) }
        ensures err { OnErr result (self.new ≡ self.old) }
    {
        match next {
            None => self.start_again(alloc),
            Some(mut next) => {
                next.start_again(alloc)?;
                *self = next;
                Ok(())
            }
        }
    }

    /// Becomes the next, and gives the controller that it was.
    fn become_next(&mut self, next: MemorySeat<C>) -> C
        ensures next { self.new ≡ next }
        ensures before { result ≡ self.old }
    {
        let MemorySeat {
            controller,
            text,
            twin,
        } = mem::replace(self, next);
        drop(text);
        drop(twin);
        controller
    }

    /// Stores what a step led to. The controller that it was makes the same step, if it is told
    /// one, and is the second value then; where memory runs out there is none.
    fn store(
        &mut self,
        alloc: Global,
        next: Option<MemorySeat<C>>,
        again: Option<StepInput<C::Order>>,
        at: u64,
    )
        // Wants: the state that the step leads to.
        requires { led_to C.order_step C.take_step again at self.old ≡ unwrap_or next self.old }
        ensures { self.new ≡ unwrap_or next self.old }
    {
        let Some(next) = next else {
            drop(again);
            return;
        };
        let mut second = self.become_next(next);
        let Some(cause) = again else {
            self.twin = Some(second);
            return;
        };
        match make(alloc, &mut second, cause, at) {
            Ok((outcome, _)) => {
                drop(outcome);
                self.twin = Some(second);
            }
            Err(_) => drop(second),
        }
    }
}

impl<C: StoredController> Seat<C> for MemorySeat<C>
where
    C::Order: Duplicate,
{
    ghost use Rattle.std.specs.Prelude.{refl, IfErr};
    ghost use Rattle.ticket_items.specs.declared.refusal.Refusal.TheVariants.{Memory};
    ghost use Rattle.streams.specs.declared.refused.Refused.TheVariants.{Core};

    ghost kept = { λ seat. seat };

    ghost is_fresh = { λ _. true };

    ghost is_sure = { true };

    ghost refuses = { λ e. e ≡ Core Memory };

    ghost sure_is_fresh = { λ _ _. refl };

    fn name(&self) -> &Id {
        self.controller.name()
    }

    fn controller(&self) -> Option<&C> {
        Some(&self.controller)
    }

    fn step(
        &mut self,
        alloc: Global,
        cause: StepInput<C::Order>,
        at: u64,
    ) -> Result<OrderBytes, Refused>
        // Proved: A controller beside the text of its state is a seat, at which a step that is
        // refused is never held; none is refused but for want of memory.
        // By `reply`, `message`, `read`, `state`, `err`, `refused`; `MemorySeat::stop`: `reply`,
        // `state`, `err`, `refused`; `MemorySeat::text`: `text`, `again`; `MemorySeat::new`,
        // `MemorySeat::controller`.
        ensures reply { IfOk result (λ given. given.reply
            ≡ (step_on C.order_step C.take_step cause at self.old).reply) }
        ensures message { IfOk result (λ given. option_map (λ b. b.items) given.message
            ≡ option_map text_sent (step_on C.order_step C.take_step cause at self.old).sent) }
        ensures read { OnOk result (IfSome
            (step_on C.order_step C.take_step cause at self.old).sent
            (λ m. IsDecodedAs (text_sent m) (Ok m))) }
        ensures state { OnOk result (self.new
            ≡ (step_on C.order_step C.take_step cause at self.old).next) }
        ensures err { OnErr result (self.new ≡ self.old) }
        ensures refused { IfErr result (λ e. e ≡ Core Memory) }
    {
        let again = copy_unless_it_stays(alloc, &self.controller, &cause)?;
        let (next, given) = self.step_made(alloc, cause, at)?;
        self.store(alloc, next, again, at);
        Ok(given)
    }

    fn stop(
        &mut self,
        alloc: Global,
        cause: StepInput<C::Order>,
        at: u64,
    ) -> Result<Result<Reply, Refusal>, Refused>
        ensures reply { IfOk result (λ reply. reply
            ≡ (step_on C.order_step C.take_step cause at self.old).reply) }
        ensures state { OnOk result (self.new
            ≡ (step_on C.order_step C.take_step cause at self.old).next) }
        ensures err { OnErr result (self.new ≡ self.old) }
        ensures refused { IfErr result (λ e. e ≡ Core Memory) }
    {
        let (next, given) = self.step_made(alloc, cause, at)?;
        let OrderBytes { reply, message } = given;
        drop(message);
        self.stop_after(alloc, next)?;
        Ok(reply)
    }

    fn restart(&mut self, alloc: Global) -> Result<(), Refused> {
        self.start_again(alloc)?;
        Ok(())
    }
}
