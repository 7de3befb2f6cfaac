//! Lemmas on the definitions of this crate, each stated as the contract of a function with an empty
//! body.
ghost use Rattle.sending.specs.ReadBack.{RequestsAreRead, ResponsesAreRead};

/// An acceptor reads an A-ASSOCIATE-RQ as exactly its titles and its presentation contexts, in their
/// order.
pub fn requests_are_read()
    ensures { RequestsAreRead }
{}

/// The response that an acceptor sends to a C-STORE, to a peer with the maximum length that an
/// A-ASSOCIATE-RQ has, is one P-DATA-TF PDU, and is read as its status, of its message.
pub fn responses_are_read()
    ensures { ResponsesAreRead }
{}
