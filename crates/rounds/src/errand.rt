use crate::waiting::WaitingClient;
use stored_state::Coming;

/// What a client has come for to a controller.
#[derive(Drop)]
pub struct Errand<S> {
    /// Who waits for what comes of it.
    pub waiting: WaitingClient<S>,
    pub coming: Coming,
}
