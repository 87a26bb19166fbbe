//! Laws of the protocol. Nothing here runs.

ghost use Rattle.nx_protocol.specs.Runs.{RequestsAreAnswered, TextsAreTheClients};

/// Whatever messages come, and wherever memory is wanting: what is held under a URI is the document that the client has under it, or nothing.
pub fn texts_are_the_clients()
    ensures { TextsAreTheClients }
{}

/// Each request that is served is answered once.
pub fn requests_are_answered()
    ensures { RequestsAreAnswered }
{}
