//! One HTTP exchange, without a store: the head of a request is read from a stream and becomes what is
//! asked, its body is given a piece at a time, and an answer becomes the bytes of a response, which are
//! written. The clients of a port wait beside each other, so that one which sends nothing holds up nobody.
#![tactic(auto)]

// The body of a request (specs/Bodies.antt).
mod bodies;
// The checks that a request can fail before its command (specs/Failings.antt).
mod failings;
// The head of a request, in the bytes that came so far (specs/Heads.antt).
mod heads;
// The length of a body (specs/Lengths.antt).
mod lengths;
// The names of parameters (specs/Parameters.antt).
mod names;
// Decimal numbers of a request (specs/Numbers.antt).
mod numbers;
// The parameters of a target (specs/Parameters.antt).
mod parameters;
// The table of routes, and what is asked there (specs/Places.antt, specs/Asked.antt).
mod places;
// The head of a request is read (specs/Received.antt).
mod receiving;
// From a head to what is asked, by the checks in their order (specs/Requests.antt).
mod checks;
// The bytes of a response (specs/Responses.antt).
mod responses;
// The routes, as `matchit` keeps them (specs/Routes.antt).
mod routing;
// A response is written (specs/Streams.antt).
mod sending;
// The trait of what bytes come from and go to (specs/Streams.antt).
mod streams;
// Texts cut at a byte (specs/Texts.antt).
mod texts;
// The clients of a port.
mod clients;
// A socket as a stream, with its deadlines.
mod connection;
// A client that waits.
mod waiting;

pub use bodies::{Body, body_comes};
pub use checks::{Request, read_request};
pub use clients::{Client, Clients};
pub use connection::Connection;
pub use failings::Failing;
pub use heads::{FIELD_LIMIT, HEAD_LIMIT, Head, find_head};
pub use http::StatusCode;
pub use places::{Method, PathCommand, Place, SOURCE_LIMIT};
pub use receiving::{HeadEnd, read_head};
pub use responses::{RESPONSE_HEAD_ROOM, put_head};
pub use routing::routes;
pub use sending::{RESPONSE_ROOM, send, write_all};
pub use streams::{Stream, StreamFault};
