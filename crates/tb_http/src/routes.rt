//! The desk's routes, matched by the library matchit.

ghost use Rattle.std.specs.Prelude.{◌≡◌, Err as ErrOf, IfErr, IfOk, OnOk, true};
ghost use Rattle.matchit.specs.Route.{parse_route};
ghost use Rattle.matchit.specs.Router.{InsertsRead};
ghost use Rattle.matchit.specs.declared.error.InsertError.TheVariants.{OutOfMemory};
ghost use Rattle.tb_http.specs.Routes.{takes_text, with_text, route_rows, route_of};

use matchit::{InsertError, Router};
use std::alloc::Global;

/// A route of the desk.
#[derive(Clone, Copy)]
pub enum Route {
    /// `/batches/{name}`
    Batch,
    /// `/batches/{name}/{event}`
    Step,
    /// `/sentences/{no}/after/{base}`
    Correction,
    /// `/sentences/{no}`
    Sentence,
    /// `/sentences/{no}/{rev}`
    Revision,
    /// `/pull/{no}`
    Pull,
    /// `/restore/{no}`
    Restore,
    /// `/released`
    Released,
    /// `/totals`
    Totals,
    /// `/moves`
    Moves,
    /// `/search/{strategy}/{context}`
    Search,
    /// `/count/{strategy}/{attribute}`
    Count,
}

/// The router with one more route.
fn with(mut router: Router<Route>, route: &str, value: Route) -> Result<Router<Route>, InsertError>
    ensures rows { IfOk result (λ r. r ≡ with_text route.now value router) }
    ensures taken { OnOk result (takes_text route.now router ≡ true) }
    ensures memory { takes_text route.now router ≡ true → IfErr result (λ e. e ≡ OutOfMemory) }
    ensures fault { IfErr result (λ e. InsertsRead (parse_route route.now) value router router (ErrOf e)) }
{
    match router.insert(route, value) {
        Ok(()) => Ok(router),
        Err(why) => Err(why),
    }
}

/// The router of the desk's paths.
fn router(alloc: Global) -> Result<Router<Route>, InsertError>
    ensures rows { IfOk result (λ r. r ≡ route_rows) }
    ensures memory { IfErr result (λ e. e ≡ OutOfMemory) }
{
    let router = Router::new(alloc);
    let router = with(router, "/batches/{name}", Route::Batch)?;
    let router = with(router, "/batches/{name}/{event}", Route::Step)?;
    let router = with(router, "/sentences/{no}/after/{base}", Route::Correction)?;
    let router = with(router, "/sentences/{no}", Route::Sentence)?;
    let router = with(router, "/sentences/{no}/{rev}", Route::Revision)?;
    let router = with(router, "/pull/{no}", Route::Pull)?;
    let router = with(router, "/restore/{no}", Route::Restore)?;
    let router = with(router, "/released", Route::Released)?;
    let router = with(router, "/totals", Route::Totals)?;
    let router = with(router, "/moves", Route::Moves)?;
    let router = with(router, "/search/{strategy}/{context}", Route::Search)?;
    let router = with(router, "/count/{strategy}/{attribute}", Route::Count)?;
    Ok(router)
}

/// The desk's routes, built once for many requests.
#[derive(Drop)]
pub struct Routes {
    router: Router<Route>,
    ghost are_the_desks: { router ≡ route_rows },
}

impl Routes {
    /// Builds the routes.
    ///
    /// # Errors
    ///
    /// Memory was refused.
    pub fn new(alloc: Global) -> Result<Routes, InsertError>
        ensures { IfErr result (λ e. e ≡ OutOfMemory) }
    {
        let router = router(alloc)?;
        Ok(Routes { router })
    }

    /// The route of a target. The forms of its segments are not tested.
    pub fn route(&self, target: &str) -> Option<Route>
        ensures { result ≡ route_of target.now }
    {
        match self.router.at(target) {
            Ok(found) => Some(*found.value),
            Err(_) => None,
        }
    }
}
