// The query of a target.

ghost use Rattle.std.specs.Prelude.{◌≡◌};
ghost use Rattle.http_routes.specs.Targets.{has_api_version, is_api_version};

/// Whether the query has an `api-version` with a value.
pub(crate) fn has_api_version(query: &str) -> bool
    ensures { result ≡ has_api_version query.now }
{
    query.split('&').any(|piece| is_api_version(piece))
}

// Whether the piece of a query is an `api-version` with a value.
fn is_api_version(piece: &str) -> bool
    ensures { result ≡ is_api_version piece.now }
{
    let bytes = piece.as_bytes();
    if bytes.len() <= 12 {
        return false;
    }
    b"api-version=".as_slice() == &bytes[..12]
}
