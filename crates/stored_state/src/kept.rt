ghost use Rattle.std.specs.Prelude.{◌≡◌, ◌≤◌, ◌⊎◌, ◌↔◌, Ok, Err, false, true};
ghost use Rattle.std.specs.Prelude.{IfOk, IfErr, IfSome, IsErrOf, OnOk, OnErr};
ghost use Rattle.std.specs.Option.{option_map};
ghost use Rattle.serde_json.specs.Written.{compact_text};
ghost use Rattle.ticket_items.specs.declared.refusal.Refusal.TheVariants.{Memory};
ghost use Rattle.jmf_message.specs.Decoded.{IsDecodedAs, IsRefusalOf as IsUndecoded};
ghost use Rattle.controller.specs.Words.{may_be_sent};
ghost use Rattle.keepers.specs.Keeper.{CountRose};
ghost use Rattle.stored_state.specs.Cause.{step_on};
ghost use Rattle.stored_state.specs.Held.{GivesNothing, HoldsOldOrNext, HoldsSame, IsNotLoaded};
ghost use Rattle.stored_state.specs.Held.{IsNotSaved, IsReadAs, ShowsEither};
ghost use Rattle.stored_state.specs.Message.{IsOfMessage, message_text};
ghost use Rattle.stored_state.specs.Sender.{IsSentBy};
ghost use Rattle.streams.specs.declared.refused.Refused.TheVariants.{Core, LoadFailed};
ghost use Rattle.streams.specs.declared.refused.Refused.TheVariants.{SaveFailed, Stale};

use crate::cause::{StepInput, make};
use crate::order_bytes::OrderBytes;
use crate::stored::StoredController;
use crate::storing::{load, save, save_step};
use crate::taken_bytes::TakenBytes;
use controller::{Message, Outcome};
use jmf_message::decode;
use keepers::Keep;
use std::alloc::Global;
use std::marker::Model;
use streams::Refused;
use ticket_tree::Duplicate;

/// A controller beside the keeper of its state (our own). Each step is saved before anything of it
/// is given out. Once a step could not be saved it is stale: another state may be held than is
/// shown, and until it is loaded again no order and no message is taken.
#[derive(Drop)]
pub struct Kept<C: StoredController, K: Keep> {
    controller: C,
    keep: K,
    stale: bool,
}

impl<C: StoredController, K: Keep> Model for Kept<C, K> {
    ghost use Rattle.stored_state.specs.Held.{KeptState};

    ghost Value = { KeptState C K };

    ghost view = { λ kept. record {
      controller = kept.controller;
      keep = kept.keep;
      stale = kept.stale;
    } };
}

impl<C: StoredController, K: Keep> Kept<C, K> {
    /// A controller beside the keeper that holds its state.
    pub(crate) fn new_saved(controller: C, keep: K) -> Kept<C, K>
        ensures { result ≡ record { controller = controller; keep = keep; stale = false } }
    {
        Kept {
            controller,
            keep,
            stale: false,
        }
    }

    /// A new controller beside its keeper, which holds its state from then on. Refuses `SaveFailed`
    /// and `Memory`.
    pub fn create(alloc: Global, controller: C, mut keep: K) -> Result<Kept<C, K>, Refused>
        // Proved: A new controller's state is held, and read again as it; only a failed save or
        // memory prevents that.
        // By `controller`, `held`, `again`, `honest`, `fresh`, `only`, `failures`.
        ensures controller { IfOk result (λ kept. kept.controller ≡ controller) }
        ensures held { IfOk result (λ kept. K.is_honest kept.keep ≡ true →
            K.held kept.keep ≡ compact_text (C.state_data controller)) }
        ensures again { IfOk result (λ kept. K.is_honest kept.keep ≡ true →
            IsReadAs C.state_read (K.held kept.keep) (Ok kept.controller)) }
        ensures honest { IfOk result (λ kept. K.is_honest kept.keep ≡ K.is_honest keep) }
        // Proved: No call changes the keeper's place.
        // By `place`; `Kept::open`, `Kept::order`, `Kept::take`, `Kept::reload`, `AnyKept::order`,
        // `AnyKept::take`, `open_any`, `Snapshot::of`, `Snapshot::open`, `take_all`: `place`.
        ensures place { IfOk result (λ kept. K.place kept.keep ≡ K.place keep) }
        ensures fresh { IfOk result (λ kept. kept.stale ≡ false) }
        ensures only { IfErr result (λ e. (e ≡ SaveFailed) ⊎ (e ≡ Core Memory)) }
        ensures failures { IsErrOf result SaveFailed → (after : K)
            × K.save_fails keep (compact_text (C.state_data controller)) after
            × CountRose (K.count keep) (K.count after) }
    {
        let text = controller.state_text(alloc)?;
        save(&mut keep, text.as_slice())?;
        drop(text);
        Ok(Kept::new_saved(controller, keep))
    }

    /// The controller whose state a keeper holds, beside the keeper, which holds it on. Refuses
    /// `LoadFailed`, what the bytes held are refused for, and `Memory`.
    pub fn open(alloc: Global, mut keep: K) -> Result<Kept<C, K>, Refused>
        // Proved: An opened controller is what the bytes held are read as.
        // By `controller`, `held`, `honest`, `fresh`, `refused`, `failures`.
        ensures controller { IfOk result (λ kept. K.is_honest keep ≡ true →
            IsReadAs C.state_read (K.held keep) (Ok kept.controller)) }
        ensures held { IfOk result (λ kept. HoldsSame K.is_honest K.held keep kept.keep) }
        ensures honest { IfOk result (λ kept. K.is_honest kept.keep ≡ K.is_honest keep) }
        ensures place { IfOk result (λ kept. K.place kept.keep ≡ K.place keep) }
        ensures fresh { IfOk result (λ kept. kept.stale ≡ false) }
        ensures refused { IfErr result
            (IsNotLoaded C.state_read (K.is_honest keep) (K.held keep)) }
        ensures failures { IsErrOf result LoadFailed → (after : K)
            × K.load_fails keep after × CountRose (K.count keep) (K.count after) }
    {
        let controller = load(alloc, &mut keep)?;
        Ok(Kept::new_saved(controller, keep))
    }

    /// Saves the state, and gives the text of what goes out, if anything does. It is stale from
    /// then on just where that failed.
    fn give_out(
        &mut self,
        alloc: Global,
        message: Option<Message>,
    ) -> Result<Option<Vec<u8>>, Refused>
        requires { IfSome message (λ m. may_be_sent m.body ≡ true) }
        ensures text { IfOk result (λ text. option_map (λ b. b.items) text
            ≡ option_map message_text message) }
        ensures read { OnOk result (IfSome message (λ m. IsDecodedAs (message_text m) (Ok m))) }
        ensures controller { self.new.controller ≡ self.old.controller }
        ensures fresh { OnOk result (self.new.stale ≡ false) }
        ensures stale { OnErr result (self.new.stale ≡ true) }
        ensures held { OnOk result (K.is_honest self.old.keep ≡ true →
            K.held self.new.keep ≡ compact_text (C.state_data self.old.controller)) }
        ensures again { OnOk result (K.is_honest self.old.keep ≡ true →
            IsReadAs C.state_read (K.held self.new.keep) (Ok self.old.controller)) }
        ensures honest { K.is_honest self.new.keep ≡ K.is_honest self.old.keep }
        ensures place { K.place self.new.keep ≡ K.place self.old.keep }
        ensures counted { K.count self.old.keep ≤ K.count self.new.keep }
        ensures refused { IfErr result (IsNotSaved K.is_honest K.held K.count K.save_fails
            (compact_text (C.state_data self.old.controller)) self.old.keep self.new.keep) }
        ensures left { OnErr result (K.is_honest self.old.keep ≡ true → HoldsOldOrNext
            C.state_read (K.held self.old.keep) self.old.controller (K.held self.new.keep)) }
    {
        let given = save_step(alloc, &self.controller, &mut self.keep, &message);
        drop(message);
        self.stale = given.is_err();
        given
    }

    /// Makes a step, saves the state that it leads to, and gives out what comes of it.
    pub(crate) fn step(
        &mut self,
        alloc: Global,
        cause: StepInput<C::Order>,
        at: u64,
    ) -> Result<OrderBytes, Refused>
        requires { self.old.stale ≡ false }
        ensures reply { IfOk result (λ given. given.reply
            ≡ (step_on C.order_step C.take_step cause at self.old.controller).reply) }
        ensures message { IfOk result (λ given. option_map (λ b. b.items) given.message
            ≡ option_map message_text
            (step_on C.order_step C.take_step cause at self.old.controller).sent) }
        ensures read { OnOk result (IfSome
            (step_on C.order_step C.take_step cause at self.old.controller).sent
            (λ m. IsDecodedAs (message_text m) (Ok m))) }
        ensures state { OnOk result (self.new.controller
            ≡ (step_on C.order_step C.take_step cause at self.old.controller).next) }
        ensures fresh { OnOk result (self.new.stale ≡ false) }
        ensures held { OnOk result (K.is_honest self.old.keep ≡ true →
            K.held self.new.keep ≡ compact_text (C.state_data self.new.controller)) }
        ensures again { OnOk result (K.is_honest self.old.keep ≡ true →
            IsReadAs C.state_read (K.held self.new.keep) (Ok self.new.controller)) }
        ensures honest { K.is_honest self.new.keep ≡ K.is_honest self.old.keep }
        ensures place { K.place self.new.keep ≡ K.place self.old.keep }
        ensures counted { K.count self.old.keep ≤ K.count self.new.keep }
        ensures refused { IfErr result (GivesNothing K.is_honest K.held K.count K.save_fails
            (λ e. e ≡ Memory) (λ text. text ≡ compact_text (C.state_data
            (step_on C.order_step C.take_step cause at self.old.controller).next))
            self.old self.new) }
        ensures left { OnErr result (K.is_honest self.old.keep ≡ true →
            HoldsOldOrNext C.state_read (K.held self.old.keep)
            (step_on C.order_step C.take_step cause at self.old.controller).next
            (K.held self.new.keep)) }
        ensures shown { OnErr result (ShowsEither self.old (λ c. c
            ≡ (step_on C.order_step C.take_step cause at self.old.controller).next) self.new) }
    {
        let (Outcome { reply, answer }, _) = make(alloc, &mut self.controller, cause, at)?;
        let message = self.give_out(alloc, answer)?;
        Ok(OrderBytes { reply, message })
    }

    /// Tells the controller an order, at a time in seconds since 1970, and saves its state, also
    /// where the controller refuses the order and so stays as it was. Gives out what it replies and
    /// the text of the message that goes out. Refuses `Stale` while it is stale, and where memory
    /// runs out in the step, `Memory`; neither changes anything. Where a text can't be made for
    /// want of memory, and where the state can't be saved, `Memory` or `SaveFailed`, it is stale
    /// from then on.
    pub fn order(&mut self, alloc: Global, order: C::Order, at: u64) -> Result<OrderBytes, Refused>
        // Proved: A step is saved before its reply and message are told.
        // By `reply`, `message`, `state`, `held`, `again`, `fresh`; `Kept::take`: `ok`, `held`,
        // `again`, `fresh`.
        ensures reply { IfOk result (λ given. given.reply
            ≡ (C.order_step order at self.old.controller).reply) }
        ensures message { IfOk result (λ given. option_map (λ b. b.items) given.message
            ≡ option_map message_text (C.order_step order at self.old.controller).sent) }
        ensures state { OnOk result (self.new.controller
            ≡ (C.order_step order at self.old.controller).next) }
        ensures fresh { OnOk result (self.new.stale ≡ false) }
        ensures held { OnOk result (K.is_honest self.old.keep ≡ true →
            K.held self.new.keep ≡ compact_text (C.state_data self.new.controller)) }
        ensures again { OnOk result (K.is_honest self.old.keep ≡ true →
            IsReadAs C.state_read (K.held self.new.keep) (Ok self.new.controller)) }
        // Proved: `Stale` is answered just while a controller is stale, whatever else is wrong,
        // and then nothing is tried.
        // By `stale`, `refused`; `Kept::take`, `AnyKept::order`, `AnyKept::take`: `stale`,
        // `refused`; `Kept::is_stale`, `Kept::controller`.
        ensures stale { (self.old.stale ≡ true) ↔ IsErrOf result Stale }
        // Proved: Where a step isn't saved nothing of it is told: all is as it was, or the old or
        // new state is held and the controller stale.
        // By `refused`, `honest`, `counted`; `Kept::take`: `refused`, `honest`, `counted`.
        ensures honest { K.is_honest self.new.keep ≡ K.is_honest self.old.keep }
        ensures place { K.place self.new.keep ≡ K.place self.old.keep }
        ensures counted { K.count self.old.keep ≤ K.count self.new.keep }
        ensures refused { IfErr result (GivesNothing K.is_honest K.held K.count K.save_fails
            (λ e. e ≡ Memory) (λ text. text ≡ compact_text (C.state_data
            (C.order_step order at self.old.controller).next)) self.old self.new) }
        // Proved: The controller that is shown where a step isn't saved is the one before it, or
        // the one after it.
        // By `shown`; `Kept::take`: `shown`.
        ensures shown { OnErr result (ShowsEither self.old
            (λ c. c ≡ (C.order_step order at self.old.controller).next) self.new) }
    {
        if self.stale {
            drop(order);
            return Err(Refused::Stale);
        }
        self.step(alloc, StepInput::Order(order), at)
    }

    /// Gives the controller the message that bytes are, at a time in seconds since 1970, and saves
    /// its state. Gives out what the message was taken as or why it was refused, and the text of
    /// the answer. Refuses `Stale` while it is stale; else what `decode` refuses the bytes for, and
    /// where memory runs out in the step, `Memory`; none of these changes anything. Where a text
    /// can't be made for want of memory, and where the state can't be saved, `Memory` or
    /// `SaveFailed`, it is stale from then on.
    pub fn take(&mut self, alloc: Global, bytes: &[u8], at: u64) -> Result<TakenBytes, Refused>
        ensures ok { IfOk result (λ given. IsOfMessage bytes.now (λ m.
            (self.new.controller ≡ (C.take_step m at self.old.controller).next)
            × (given.reply ≡ (C.take_step m at self.old.controller).reply)
            × (option_map (λ b. b.items) given.answer
            ≡ option_map message_text (C.take_step m at self.old.controller).sent))) }
        // Proved: Who sent a message is told as the message says.
        // By `sender`; `AnyKept::take`: `sender`.
        ensures sender { IfOk result (λ given. IsSentBy bytes.now given.sender) }
        ensures fresh { OnOk result (self.new.stale ≡ false) }
        ensures held { OnOk result (K.is_honest self.old.keep ≡ true →
            K.held self.new.keep ≡ compact_text (C.state_data self.new.controller)) }
        ensures again { OnOk result (K.is_honest self.old.keep ≡ true →
            IsReadAs C.state_read (K.held self.new.keep) (Ok self.new.controller)) }
        ensures stale { (self.old.stale ≡ true) ↔ IsErrOf result Stale }
        ensures honest { K.is_honest self.new.keep ≡ K.is_honest self.old.keep }
        ensures place { K.place self.new.keep ≡ K.place self.old.keep }
        ensures counted { K.count self.old.keep ≤ K.count self.new.keep }
        ensures refused { IfErr result (GivesNothing K.is_honest K.held K.count K.save_fails
            (IsUndecoded bytes.now) (λ text. IsOfMessage bytes.now (λ m. text
            ≡ compact_text (C.state_data (C.take_step m at self.old.controller).next)))
            self.old self.new) }
        ensures shown { OnErr result (ShowsEither self.old (λ c. IsOfMessage bytes.now
            (λ m. c ≡ (C.take_step m at self.old.controller).next)) self.new) }
    {
        if self.stale {
            return Err(Refused::Stale);
        }
        let message = decode(alloc, bytes)?;
        let sender = message.sender.copy(alloc)?;
        let given = self.step(alloc, StepInput::Message(message), at)?;
        Ok(TakenBytes {
            sender: Some(sender),
            reply: given.reply,
            answer: given.message,
        })
    }

    /// Loads the controller again, whose state its keeper holds; it isn't stale then. Refuses
    /// `LoadFailed`, what the bytes held are refused for, and `Memory`, and then it stays as it
    /// was.
    pub fn reload(&mut self, alloc: Global) -> Result<(), Refused>
        // Proved: A reload gives the controller that is held.
        // By `controller`, `fresh`, `held`, `honest`, `counted`.
        ensures controller { OnOk result (K.is_honest self.old.keep ≡ true →
            IsReadAs C.state_read (K.held self.old.keep) (Ok self.new.controller)) }
        ensures fresh { OnOk result (self.new.stale ≡ false) }
        ensures held { HoldsSame K.is_honest K.held self.old.keep self.new.keep }
        ensures honest { K.is_honest self.new.keep ≡ K.is_honest self.old.keep }
        ensures place { K.place self.new.keep ≡ K.place self.old.keep }
        ensures counted { K.count self.old.keep ≤ K.count self.new.keep }
        // Proved: Where a reload is refused the controller stays as it was, and `LoadFailed` comes
        // only where the keeper failed.
        // By `refused`, `shown`, `stale`, `fails`, `failures`.
        ensures refused { IfErr result
            (IsNotLoaded C.state_read (K.is_honest self.old.keep) (K.held self.old.keep)) }
        ensures shown { OnErr result (self.new.controller ≡ self.old.controller) }
        ensures stale { OnErr result (self.new.stale ≡ self.old.stale) }
        ensures fails { IsErrOf result LoadFailed →
            K.load_fails self.old.keep self.new.keep }
        ensures failures { IsErrOf result LoadFailed →
            CountRose (K.count self.old.keep) (K.count self.new.keep) }
    {
        self.controller = load(alloc, &mut self.keep)?;
        self.stale = false;
        Ok(())
    }

    /// Whether another state may be held than is shown.
    pub fn is_stale(&self) -> bool
        ensures { result ≡ self.now.stale }
    {
        self.stale
    }

    /// The controller. While it is stale it is open whether that is the one before the step that
    /// could not be saved, or the one after it.
    pub fn controller(&self) -> &C
        ensures { result.now ≡ self.now.controller }
    {
        &self.controller
    }
}
