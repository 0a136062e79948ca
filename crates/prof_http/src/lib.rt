//! A warehouse served over HTTP, over any stream of bytes and to one client after another: a request is read, its command is
//! done over the warehouse, and the response is sent.
#![tactic(auto)]

// The exchange (specs/Exchanges.antt).
mod exchange;
// Lines about requests that were served.
mod logging;
// What is replied to a request, and how it is sent (specs/Replies.antt).
mod replies;
// Where the heads of requests and responses stand.
mod rooms;
// The text of sums is sent as it is made.
mod sending;
// Clients are served, one after another (specs/Served.antt).
mod serving;

pub use exchange::answer;
pub use http_exchange::{Stream, StreamFault, routes};
pub use replies::Exchange;
pub use rooms::Room;
pub use serving::{Service, serve_on, serve_over};
