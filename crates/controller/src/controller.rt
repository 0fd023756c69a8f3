ghost use Rattle.std.specs.Prelude.{◌≡◌, ◌≢◌, ℕ, List, Err, true, false};
ghost use Rattle.std.specs.Prelude.{IfErr, IfOk, IfSome, IsOk, OnErr};
ghost use Rattle.controller.specs.Reply.{is_freed};
ghost use Rattle.controller.specs.Step.{Step, done_step, outcome_step, refused_step};
ghost use Rattle.controller.specs.Words.{is_answer, may_be_sent};
ghost use Rattle.controller.specs.declared.message.Message.{Message as MessageSeen};
ghost use Rattle.ticket_items.specs.declared.refusal.Refusal.TheVariants.{Memory};

use crate::done::Done;
use crate::message::Message;
use crate::outcome::Outcome;
use std::alloc::{AllocError, Global};
use ticket_tree::{Id, Refusal};

/// A controller of a job (JDF 1.5, 5): it is told orders and takes messages, each of which is one
/// step from one state to the next. What a step does depends on the state, what comes and the time
/// alone.
pub trait Controller: Drop {
    /// What it is told to do.
    type Order: Drop;

    /// Its own name.
    ghost own_name: { Self → List ℕ };

    /// Its step on an order at a time.
    ghost order_step: { Self.Order → ℕ → Self → Step Self MessageSeen };

    /// Its step on a message at a time.
    ghost take_step: { MessageSeen → ℕ → Self → Step Self MessageSeen };

    /// Its name.
    fn name(&self) -> &Id
        // Proved: A controller tells its name.
        ensures { result.now ≡ own_name self.now };

    /// Does what it is told, at a time in seconds since 1970. Refuses what doesn't hold of its
    /// state, without memory, and then `Memory`. A refusal changes nothing.
    fn order(&mut self, alloc: Global, order: Self::Order, at: u64) -> Result<Done, Refusal>
        // Proved: A step depends on state, input and time alone, and is one value: what is
        // replied, what is sent, what it leads to.
        // By `ok`, `err`; `Controller::take`: `ok`, `err`.
        ensures ok { IfOk result (λ done. done_step done self.new ≡ order_step order at self.old) }
        // Proved: What is sent may be sent.
        // By `sendable`; `Controller::take`: `sendable`.
        ensures sendable { IfOk result
            (λ done. IfSome done.message (λ m. may_be_sent m.body ≡ true)) }
        ensures err { OnErr result (self.new ≡ self.old) }
        // Proved: What a controller refuses changes nothing and sends nothing, and is refused
        // without memory.
        // By `refused`, `memory`, `known`, `idle`.
        ensures refused { IfErr (order_step order at self.old).reply (λ e. result ≡ Err e) }
        ensures memory { IfOk (order_step order at self.old).reply
            (λ _. IfErr result (λ e. e ≡ Memory)) }
        ensures known { IfErr (order_step order at self.old).reply (λ e. e ≢ Memory) }
        ensures idle { IfErr (order_step order at self.old).reply
            (λ e. order_step order at self.old ≡ refused_step e self.old) };

    /// Takes a message, whoever sent it and whatever it says, at a time in seconds since 1970. The
    /// reply is what it was taken as, or why it was refused. A command is answered, refused or not;
    /// an answer isn't, and takes no memory unless it frees a spawn. Where memory runs out nothing
    /// is changed.
    fn take(&mut self, alloc: Global, message: Message, at: u64) -> Result<Outcome, AllocError>
        ensures ok { IfOk result
            (λ outcome. outcome_step outcome self.new ≡ take_step message at self.old) }
        ensures sendable { IfOk result
            (λ outcome. IfSome outcome.answer (λ m. may_be_sent m.body ≡ true)) }
        ensures err { OnErr result (self.new ≡ self.old) }
        // Proved: An answer that frees no spawn needs no memory.
        ensures answers { is_answer message.body ≡ true
            → IfOk (take_step message at self.old).reply (λ r. is_freed r ≡ false) → IsOk result };
}
