ghost use Rattle.std.specs.Prelude.{◌≡◌};
ghost use Rattle.stored_state.specs.Addressee.{is_addressed};

use crate::any_controller::AnyController;

/// The controller that is addressed (our own).
#[derive(Clone, Copy)]
pub enum Addressee<'a> {
    /// Any.
    Any,
    /// The one of this name.
    Named(&'a str),
    /// The worker of the first name whose master has the second.
    WorkerOf(&'a str, &'a str),
}

impl<'a> Addressee<'a> {
    /// Whether a controller is one that is addressed.
    pub fn is(self, controller: &AnyController) -> bool
        // Proved: Which controller is addressed: any, the one of a name, or the worker of a name
        // that works for a master.
        // By `AnyController::name`.
        ensures { result ≡ is_addressed self.entry controller.now }
    {
        match self {
            Addressee::Any => true,
            Addressee::Named(name) => controller.name().as_str() == name,
            Addressee::WorkerOf(name, master) => match controller {
                AnyController::Master(_) => false,
                AnyController::Worker(worker) => {
                    worker.name().as_str() == name && worker.master().as_str() == master
                }
            },
        }
    }
}
