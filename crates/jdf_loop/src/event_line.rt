use world_items::Answer;

/// What is told of an event.
#[derive(Clone, Copy)]
pub enum EventLine {
    /// What came of it.
    Answered(Answer),
    /// Its message was too large to be sent, so nothing came of it.
    TooLarge,
}

impl EventLine {
    ghost use Rattle.std.specs.Prelude.{◌≡◌};
    ghost use Rattle.jdf_loop.specs.EventLine as event_line;

    /// Whether its message was too large to be sent.
    pub fn is_too_large(&self) -> bool
        ensures { result ≡ event_line.is_too_large self.now }
    {
        match self {
            EventLine::Answered(_) => false,
            EventLine::TooLarge => true,
        }
    }
}
