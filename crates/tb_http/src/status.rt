//! The statuses of responses, with the codes of the library `http`.

use http::StatusCode;

/// A status of RFC 9110, section 15.
#[derive(Clone, Copy, Debug, PartialEq, Eq)]
pub enum Status {
    Ok,
    BadRequest,
    Forbidden,
    NotFound,
    MethodNotAllowed,
    Conflict,
    PayloadTooLarge,
    UnprocessableEntity,
    ServiceUnavailable,
    InsufficientStorage,
}

impl Status {
    ghost use Rattle.std.specs.Prelude.{◌≡◌, ◌≤◌, length};
    ghost use Rattle.tb_http.specs.Status.{code_of, phrase_of};

    /// Its code.
    pub fn code(self) -> StatusCode
        ensures { result ≡ code_of self }
    {
        match self {
            Status::Ok => StatusCode::OK,
            Status::BadRequest => StatusCode::BAD_REQUEST,
            Status::Forbidden => StatusCode::FORBIDDEN,
            Status::NotFound => StatusCode::NOT_FOUND,
            Status::MethodNotAllowed => StatusCode::METHOD_NOT_ALLOWED,
            Status::Conflict => StatusCode::CONFLICT,
            Status::PayloadTooLarge => StatusCode::PAYLOAD_TOO_LARGE,
            Status::UnprocessableEntity => StatusCode::UNPROCESSABLE_ENTITY,
            Status::ServiceUnavailable => StatusCode::SERVICE_UNAVAILABLE,
            Status::InsufficientStorage => StatusCode::INSUFFICIENT_STORAGE,
        }
    }

    /// The phrase that `http` has for the code.
    pub fn phrase(self) -> &'static str
        ensures value { result.now ≡ phrase_of self }
        ensures short { length result.now ≤ 40 }
    {
        self.code().canonical_reason().unwrap_or("")
    }
}
