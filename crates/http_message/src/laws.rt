//! Laws of the words that the contracts of this crate use. Each function does nothing: its contract
//! is the law.

ghost use Rattle.http_message.specs.Laws as law;

/// However it comes, an input carries at most one message, or is refused as one thing, and never
/// both; and it has at most one head, one method and one target.
pub fn an_input_has_one_answer()
    // Proved: An input carries at most one message or is refused as one thing, and never both; it
    // has at most one head, one method and one target.
    ensures { law.InputsHaveOneAnswer }
{}

/// What a listener is given as a request is by a method that it takes, and has no body but by POST.
pub fn a_request_is_by_a_method_that_is_taken()
    ensures { law.RequestsAreTaken }
{}
