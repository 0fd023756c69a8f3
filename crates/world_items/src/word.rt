use crate::reply::Reply;
use ticket_tree::Refusal;

/// What came of an event, in a word.
#[derive(Clone, Copy, PartialEq, Eq)]
pub enum Word {
    /// A controller did what it was told, or took what came, and replied so.
    Did(Reply),
    /// A controller refused it, or none has the name.
    Refused(Refusal),
    /// The controller stopped before its state was stored, and was started again.
    Stopped,
    /// The controller was started again.
    Restarted,
    /// No message has the number.
    NoMessage,
}

impl Word {
    ghost use Rattle.std.specs.Prelude.{◌≡◌};
    ghost use Rattle.world_items.specs.Word.{word_of};

    /// What a controller replies, or why it refuses.
    pub fn of(reply: Result<Reply, Refusal>) -> Word
        // Proved: A reply and a refusal have a word.
        ensures { result ≡ word_of reply }
    {
        match reply {
            Ok(reply) => Word::Did(reply),
            Err(refusal) => Word::Refused(refusal),
        }
    }
}
