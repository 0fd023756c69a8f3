use crate::call::Call;
use http_message::Received;
use streams::Refused;

/// What came of a call's turn.
#[derive(Drop)]
pub enum CallTurn<S> {
    /// Nothing more is to be done until its stream is ready again.
    Wait(Call<S>),
    /// It is to have another turn: its stream may take or have more.
    Again(Call<S>),
    /// Its response came, and its stream is closed.
    Came(Received),
    /// There is no response, for this reason, and its stream is closed: what `receive` refuses of
    /// what came, and `ReadFailed` also where there is none by its deadline.
    Failed(Refused),
}
