//! The laws of the definitions: each is the contract of a function that does nothing.
ghost use Rattle.sigv4.specs.Laws.{AuthorizationRead, QueryOrdered};

/// An Authorization header is read as exactly the parts whose text it is.
pub fn law_authorization_read()
    ensures { AuthorizationRead }
{}

/// The query of a canonical request has the pairs that were given, in order.
pub fn law_query_ordered()
    ensures { QueryOrdered }
{}
