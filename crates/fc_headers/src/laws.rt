//! What is proved of the definitions.
ghost use Rattle.fc_headers.specs.NamelessHeaders.{HeadersAgree};

/// A named module and its nameless form have the same written header: the one under it resolves to the other under it.
pub fn headers_agree()
    ensures agree { HeadersAgree }
{}
