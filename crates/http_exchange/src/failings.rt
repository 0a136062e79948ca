// The checks that a request can fail before its command (specs/Failings.antt).
ghost use Rattle.std.specs.Prelude.{◌≡◌, ◌≤◌, length};
ghost use Rattle.http_exchange.specs.Failings as spec;

use crate::places::Place;
use http::StatusCode;

/// The check that a request fails.
#[derive(Clone, Copy, Debug, PartialEq, Eq)]
pub enum Failing {
    /// The head, the parameters or the length are malformed.
    BadRequest,
    /// The path is not in the table.
    NotFound,
    /// The method is none of the path's.
    WrongMethod(Place),
    /// A body has to come, and its length is not said.
    LengthRequired,
    /// The body is longer than it may be.
    TooLong,
    /// A growth was refused.
    NoMemory,
}

impl Failing {
    /// The status of its response.
    pub fn status(self) -> StatusCode
        ensures { result ≡ spec.status_of self }
    {
        match self {
            Failing::BadRequest => StatusCode::BAD_REQUEST,
            Failing::NotFound => StatusCode::NOT_FOUND,
            Failing::WrongMethod(_) => StatusCode::METHOD_NOT_ALLOWED,
            Failing::LengthRequired => StatusCode::LENGTH_REQUIRED,
            Failing::TooLong => StatusCode::PAYLOAD_TOO_LARGE,
            Failing::NoMemory => StatusCode::INSUFFICIENT_STORAGE,
        }
    }

    /// The methods of the field `Allow` of its response; empty where it has none.
    pub fn allow(self) -> &'static str
        ensures text { result.now ≡ spec.allow_of self }
        ensures short { length result.now ≤ 32 }
    {
        match self {
            Failing::WrongMethod(place) => place.allow(),
            _ => "",
        }
    }

    /// The body of its response.
    pub fn body(self) -> &'static str
        ensures { result.now ≡ spec.body_of self }
    {
        match self {
            Failing::BadRequest => "bad request\n",
            Failing::NotFound => "not found\n",
            Failing::WrongMethod(_) => "method not allowed\n",
            Failing::LengthRequired => "length required\n",
            Failing::TooLong => "refused: too long\n",
            Failing::NoMemory => "refused: out of memory\n",
        }
    }
}
