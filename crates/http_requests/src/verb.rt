// Methods.

ghost use Rattle.std.specs.Prelude.{◌≡◌};
ghost use Rattle.http_requests.specs.Verbs.{verb_of};

/// The method of a request (RFC 9110, section 9).
#[derive(Clone, Copy, Debug, PartialEq, Eq)]
pub enum Verb {
    /// `GET`
    Get,
    /// `PUT`
    Put,
    /// `POST`
    Post,
    /// `DELETE`
    Delete,
    /// Any other method. No route has it.
    Other,
}

/// The method of these bytes.
#[tactic(auto, unfolding(crate::specs::Verbs::verb_of))]
pub fn verb_of(method: &[u8]) -> Verb
    ensures { result ≡ verb_of method.now }
{
    if method == b"GET".as_slice() {
        return Verb::Get;
    }
    if method == b"PUT".as_slice() {
        return Verb::Put;
    }
    if method == b"POST".as_slice() {
        return Verb::Post;
    }
    if method == b"DELETE".as_slice() {
        return Verb::Delete;
    }
    Verb::Other
}
