use crate::word::Word;

/// What came of an event.
#[derive(Clone, Copy, PartialEq, Eq)]
pub struct Answer {
    pub word: Word,
    /// The number of the message that was sent, if one was. The first has the number 1.
    pub number: Option<u64>,
}

impl Answer {
    ghost use Rattle.std.specs.Prelude.{◌≡◌, None};

    /// That of an event at which no controller makes a step.
    pub fn without_step(word: Word) -> Answer
        // Proved: An event without a step has an answer without a number.
        ensures { result ≡ record { word = word; number = None } }
    {
        Answer { word, number: None }
    }
}
