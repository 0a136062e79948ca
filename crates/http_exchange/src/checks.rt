// From a head to what is asked, by the checks in their order (specs/Requests.antt).
ghost use Rattle.std.specs.Prelude.{◌≡◌, length, map, All};
ghost use Rattle.httparse.specs.Grammar.{RequestHead};
ghost use Rattle.httparse.specs.Spans.{IsHeaderWithin, IsRequestWithin, header_bytes};
ghost use Rattle.http_exchange.specs.Failings.{IsMet};
ghost use Rattle.http_exchange.specs.Heads.{IsHeadAt};
ghost use Rattle.http_exchange.specs.Requests as spec;
ghost use Rattle.http_exchange.specs.Routes.{routes};

use crate::failings::Failing;
use crate::lengths::body_length;
use crate::parameters::read_query;
use crate::places::{PathCommand, Place, asked_at, body_limit, method_in, names};
use crate::routing::find_place;
use crate::texts::path_and_query;
use httparse::spans::{HeaderSpan, RequestSpans};
use matchit::Router;
use std::alloc::Global;

/// What a request asks for, and how many bytes its body has: those behind its head, none where no body
/// is read.
#[derive(Drop)]
pub struct Request {
    pub asked: PathCommand,
    pub length: u64,
}

/// What is asked by a method and a target, and where: the path, the method, the parameters.
fn asked_by(
    alloc: Global,
    router: &Router<Place>,
    method: &[u8],
    target: &str,
) -> Result<(Place, PathCommand), Failing>
    requires { router.now ≡ routes }
    ensures { IsMet (spec.asked_by method.now target.now) result }
{
    let (path, query) = path_and_query(target);
    let Some(place) = find_place(router, path) else {
        return Err(Failing::NotFound);
    };
    let Some(method) = method_in(place.methods(), method) else {
        return Err(Failing::WrongMethod(place));
    };
    let query = query.map(|text| text.as_bytes());
    let Some(given) = read_query(names(place), query) else {
        return Err(Failing::BadRequest);
    };
    let asked = asked_at(alloc, place, method, path.as_bytes(), &given)?;
    Ok((place, asked))
}

/// The length of the body that is read at a place, where files have at most `limit` bytes.
fn length_at(limit: u64, place: Place, bytes: &[u8], fields: &[HeaderSpan]) -> Result<u64, Failing>
    requires { All (IsHeaderWithin (length bytes.now)) fields.now }
    ensures { result ≡ spec.length_at limit place (map (header_bytes bytes.now) fields.now) }
{
    match body_limit(limit, place) {
        Some(limit) => body_length(limit, bytes, fields),
        None => Ok(0),
    }
}

/// What is asked by a method, a target and fields, and the length of the body.
fn request_by(
    alloc: Global,
    router: &Router<Place>,
    limit: u64,
    method: &[u8],
    target: &str,
    bytes: &[u8],
    fields: &[HeaderSpan],
) -> Result<Request, Failing>
    requires router { router.now ≡ routes }
    requires within { All (IsHeaderWithin (length bytes.now)) fields.now }
    ensures { IsMet (spec.request_by limit method.now target.now (map (header_bytes bytes.now) fields.now)) result }
{
    let (place, asked) = asked_by(alloc, router, method, target)?;
    match length_at(limit, place, bytes, fields) {
        Ok(length) => Ok(Request { asked, length }),
        Err(failing) => {
            drop(asked); // at one place, so that its proof is small
            Err(failing)
        }
    }
}

/// What the request asks for whose head `find_head` found in these bytes, or the check that it fails: the
/// first of path, method, parameters and length. `limit` is how many bytes a file may have, and `router`
/// is made by `routes`.
pub fn read_request(
    alloc: Global,
    router: &Router<Place>,
    limit: u64,
    bytes: &[u8],
    fields: &[HeaderSpan],
    spans: RequestSpans,
) -> Result<Request, Failing>
    requires router { router.now ≡ routes }
    requires within { IsRequestWithin bytes.now fields.now spans }
    ensures { (head : RequestHead) → IsHeadAt bytes.now fields.now spans head → IsMet (spec.request_of limit head) result }
{
    let Ok(target) = str::from_utf8(spans.path.of(bytes)) else {
        return Err(Failing::BadRequest);
    };
    let method = spans.method.of(bytes);
    let fields = &fields[..spans.headers];
    request_by(alloc, router, limit, method, target, bytes, fields)
}
