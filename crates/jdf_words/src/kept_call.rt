/// A call on the controller that is kept in a file or a place.
#[derive(Clone, Copy)]
pub enum KeptCall {
    /// A new controller, which is kept there.
    New,
    /// An order to the controller.
    Order {
        /// The time of the order, in seconds since 1970.
        at: u64,
    },
    /// A message for the controller.
    Take {
        /// The time of the message, in seconds since 1970.
        at: u64,
    },
    /// A look at the controller.
    Show {
        /// Whether a picture is wanted.
        picture: bool,
        /// The time at which it is drawn, in seconds since 1970. `None`: that of the clock.
        at: Option<u64>,
    },
    /// A list of the work of the controller, or of each that is kept in a folder.
    List {
        /// The time of the list, in seconds since 1970. `None`: that of the clock.
        at: Option<u64>,
        /// Whether only what is open is wanted.
        is_open: bool,
        /// Whether it is wanted as JSON.
        is_json: bool,
    },
}
