use peers::OwedClient;

/// A client who waits for the response to a request.
#[derive(Drop)]
pub struct WaitingClient<S> {
    /// Under which number the client is kept.
    pub key: usize,
    pub asked: OwedClient<S>,
}
