// Why no request was read.

ghost use Rattle.std.specs.Prelude.{◌≡◌, Some, None};
ghost use Rattle.deploy_http.specs.Faults.{code_of};

use http_replies::Code;
use std::alloc::AllocError;
use thiserror::Error;

/// Why no request was read. After each of these the connection is over.
#[derive(Clone, Copy, Debug, Error, PartialEq, Eq)]
pub enum HttpFault {
    /// The bytes are no request, its body has not the form that is stated for it, or the input ends inside it.
    #[error("no request")]
    BadRequest,
    /// The head does not end within 16,384 bytes, or has more than 64 fields.
    #[error("the head is too large")]
    HeadTooLarge,
    /// The body has more than 4,194,304 bytes.
    #[error("the body is too large")]
    BodyTooLarge,
    /// No route fits.
    #[error("no route")]
    NotFound,
    /// The route has not the method.
    #[error("the route has not the method")]
    MethodNotAllowed,
    /// The query has no `api-version` with a value.
    #[error("no api-version")]
    MissingApiVersion,
    /// The length of the body is not given by `content-length`.
    #[error("no length of the body")]
    LengthRequired,
    /// The source failed.
    #[error("a read failed")]
    ReadFault,
    /// Out of memory.
    #[error("out of memory")]
    OutOfMemory,
}

impl From<AllocError> for HttpFault {
    ghost use Rattle.std.specs.Prelude.{◌≡◌};
    ghost use Rattle.deploy_http.specs.declared.fault.HttpFault.TheVariants.{OutOfMemory};

    ghost from_gives = { λ _ e. e ≡ OutOfMemory };

    fn from(_refused: AllocError) -> HttpFault {
        HttpFault::OutOfMemory
    }
}

impl HttpFault {
    /// The code of the reply to a request that is refused so; none where nothing is replied.
    pub fn code(self) -> Option<Code>
        ensures { result ≡ code_of self }
    {
        match self {
            HttpFault::BadRequest => Some(Code::BadRequest),
            HttpFault::HeadTooLarge => Some(Code::HeadTooLarge),
            HttpFault::BodyTooLarge => Some(Code::BodyTooLarge),
            HttpFault::NotFound => Some(Code::NotFound),
            HttpFault::MethodNotAllowed => Some(Code::MethodNotAllowed),
            HttpFault::MissingApiVersion => Some(Code::MissingApiVersion),
            HttpFault::LengthRequired => Some(Code::LengthRequired),
            HttpFault::ReadFault => None,
            HttpFault::OutOfMemory => None,
        }
    }
}

// The answer; the part is dropped.
pub(crate) fn letting_go<T: Drop, R: Drop>(answer: R, _part: T) -> R
    ensures { result ≡ answer }
{
    answer
}
