// The routes, as `matchit` keeps them (specs/Routes.antt).
ghost use Rattle.std.specs.Prelude.{◌≡◌, [], IfOk, OnOk};
ghost use Rattle.http_exchange.specs.Routes as spec;

use crate::places::{PLACES, Place};
use matchit::{InsertError, Router};
use std::alloc::{AllocError, Global};

/// Adds a path.
fn add(router: &mut Router<Place>, place: Place) -> Result<(), InsertError>
    ensures { OnOk result (router.new ≡ spec.with_place router.old place) }
{
    router.insert(place.pattern(), place)
}

/// Adds the paths of the table, where there are none.
fn add_all(router: &mut Router<Place>) -> Result<(), InsertError>
    requires { router.old ≡ [] }
    ensures { OnOk result (router.new ≡ spec.routes) }
{
    for place in PLACES {
        add(router, place)?;
    }
    Ok(())
}

/// The routes of the table. They may serve any number of requests.
pub fn routes(alloc: Global) -> Result<Router<Place>, AllocError>
    ensures { IfOk result (λ router. router ≡ spec.routes) }
{
    let mut router = Router::new(alloc);
    match add_all(&mut router) {
        Ok(()) => Ok(router),
        Err(_) => {
            // What is dropped at each way out is slow to prove.
            drop(router);
            Err(AllocError)
        }
    }
}

/// The place of a path in the table.
pub(crate) fn find_place(router: &Router<Place>, path: &str) -> Option<Place>
    requires { router.now ≡ spec.routes }
    ensures { result ≡ spec.place_of path.now }
{
    match router.at(path) {
        Ok(found) => Some(*found.value),
        Err(_) => None,
    }
}
