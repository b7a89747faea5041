// The phrases of statuses.

ghost use Rattle.std.specs.Prelude.{◌≡◌, [], unwrap_or};
ghost use Rattle.http.specs.StatusCode.{IsStatusCode, reason_phrase};
ghost use Rattle.http_replies.specs.ReplyBytes.{phrase_of};

use http::StatusCode;

/// The phrase of a status in a status line; empty where the service does not use the status.
pub(crate) fn phrase(status: u16) -> &'static str
    ensures { result.now ≡ phrase_of status }
{
    match status {
        200 => standard(200),
        201 => standard(201),
        400 => standard(400),
        404 => standard(404),
        405 => standard(405),
        409 => standard(409),
        411 => standard(411),
        413 => standard(413),
        431 => standard(431),
        500 => standard(500),
        502 => standard(502),
        503 => standard(503),
        507 => standard(507),
        _ => "",
    }
}

// The phrase of a standard status (RFC 9110, section 15).
fn standard(status: u16) -> &'static str
    requires { IsStatusCode status }
    ensures { result.now ≡ unwrap_or (reason_phrase status) [] }
{
    match StatusCode::from_u16(status) {
        Ok(code) => match code.canonical_reason() {
            Some(phrase) => phrase,
            None => "",
        },
        Err(_) => unreachable!(),
    }
}
