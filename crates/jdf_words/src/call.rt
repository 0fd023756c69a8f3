use crate::document_call::DocumentCall;
use crate::kept_call::KeptCall;
use crate::network_call::NetworkCall;

/// What the words of the command line call for (our own commands).
#[derive(Clone, Copy)]
pub enum Call<'a> {
    /// Of a document, which comes as input.
    Document(DocumentCall<'a>),
    /// Of a controller that is kept in a file or a place.
    Kept {
        /// The path of the file, or that of the folder, or the place.
        file: &'a str,
        /// What is wanted of it.
        call: KeptCall,
    },
    /// Over the network.
    Network(NetworkCall<'a>),
}
