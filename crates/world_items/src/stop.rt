/// Where a controller stops within a step, if it does. It is started again then from its stored
/// state.
#[derive(Clone, Copy, PartialEq, Eq)]
pub enum Stop {
    /// It doesn't stop.
    Run,
    /// Before its state is stored: the step is lost.
    BeforeSave,
    /// Once its state is stored and before its message is sent: the message is lost.
    BeforeSend,
}
