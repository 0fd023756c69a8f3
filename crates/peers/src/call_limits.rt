/// The limits of a call.
#[derive(Clone, Copy)]
pub struct CallLimits {
    /// How many milliseconds it may take until its response came.
    pub time: u64,
    /// How many bytes the body of the response has at most.
    pub body: u32,
}
