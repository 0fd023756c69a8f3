//! Laws of the definitions that the contract of `edit` cites.

ghost use Rattle.std.specs.Prelude.{◌≡◌, Bool, List, ℕ};
ghost use Rattle.document_commands.specs.declared.edit_command.document.Document.{Document};
ghost use Rattle.streams.specs.Ends.{done_status};
ghost use Rattle.document_commands.specs.EditCommand.Run.{IsRunOf, NoneOutOfMemory, output_of};
ghost use Rattle.document_commands.specs.EditCommand.Run.{status_of};

/// Where memory ran out for no edit, what is written for a document is one text: the line of each
/// edit as the ticket refuses or does it, and the text of the ticket that they leave. And the exit
/// status is one: 1 where the ticket refuses an edit, else 0.
pub fn output_is_a_function_of_the_document()
    // Proved: The output of `edit` is one text for a document, and the status one.
    ensures { (document : Document) (text : List ℕ) (refused : Bool)
        → (run : IsRunOf document text refused) → NoneOutOfMemory run.outcomes
        → (text ≡ output_of document) × (done_status refused ≡ status_of document) }
{}
