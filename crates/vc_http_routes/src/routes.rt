//! The table of routes, and the search of a path in it.

ghost use Rattle.std.specs.Prelude.{◌≡◌, [], IfOk, OnOk};
ghost use Rattle.std.specs.Option.{option_map};
ghost use Rattle.matchit.specs.Seek.{first};
ghost use Rattle.vc_http_routes.specs.Methods.{methods_in};
ghost use Rattle.vc_http_routes.specs.Routes.{methods_of, route_at};
ghost use Rattle.vc_http_routes.specs.Rows as rows;

use crate::methods::Allow;
use matchit::Router;
use std::alloc::{AllocError, Global};

/// What a path leads to.
#[derive(Clone, Copy, Debug)]
pub enum Route {
    /// `/sessions`
    Sessions,
    /// `/sessions/{s}`
    Session,
    /// `/sessions/{s}/values/{i}/{c}`
    Values,
    /// `/sessions/{s}/drops/{i}/{c}`
    Drops,
    /// `/sessions/{s}/why/{i}/{c}`
    Why,
    /// `/sessions/{s}/whynot/{i}/{c}`
    WhyNot,
    /// `/sessions/{s}/conflict`
    Conflict,
    /// `/sessions/{s}/log`
    Log,
    /// `/sessions/{s}/bill`
    Bill,
    /// `/sessions/{s}/routing`
    Routing,
    /// `/sessions/{s}/save`
    Save,
    /// `/sessions/{s}/load`
    Load,
    /// `/saved/{n}`
    Saved,
}

/// The methods of a route.
pub fn allow_of(route: Route) -> Allow
    ensures { methods_in result ≡ methods_of route }
{
    match route {
        Route::Sessions | Route::Drops | Route::WhyNot | Route::Save | Route::Load => Allow::Post,
        Route::Session => Allow::GetDelete,
        Route::Values => Allow::PutPostDelete,
        Route::Why | Route::Conflict | Route::Log | Route::Bill | Route::Routing => Allow::Get,
        Route::Saved => Allow::Delete,
    }
}

#[tactic(auto, unfolding(crate::specs::Rows::added))]
fn add(routes: &mut Router<Route>, text: &str, route: Route) -> Result<(), AllocError>
    ensures { OnOk result (routes.new ≡ rows.added text.now route routes.old) }
{
    match routes.insert(text, route) {
        Ok(()) => Ok(()),
        Err(_) => Err(AllocError),
    }
}

#[tactic(auto, unfolding(crate::specs::Rows::with_whole_routes))]
fn add_whole_routes(routes: &mut Router<Route>) -> Result<(), AllocError>
    ensures { OnOk result (routes.new ≡ rows.with_whole_routes routes.old) }
{
    add(routes, "/sessions", Route::Sessions)?;
    add(routes, "/sessions/{s}", Route::Session)?;
    add(routes, "/saved/{n}", Route::Saved)
}

#[tactic(auto, unfolding(crate::specs::Rows::with_value_routes))]
fn add_value_routes(routes: &mut Router<Route>) -> Result<(), AllocError>
    ensures { OnOk result (routes.new ≡ rows.with_value_routes routes.old) }
{
    add(routes, "/sessions/{s}/values/{i}/{c}", Route::Values)?;
    add(routes, "/sessions/{s}/drops/{i}/{c}", Route::Drops)
}

#[tactic(auto, unfolding(crate::specs::Rows::with_asking_routes))]
fn add_asking_routes(routes: &mut Router<Route>) -> Result<(), AllocError>
    ensures { OnOk result (routes.new ≡ rows.with_asking_routes routes.old) }
{
    add(routes, "/sessions/{s}/why/{i}/{c}", Route::Why)?;
    add(routes, "/sessions/{s}/whynot/{i}/{c}", Route::WhyNot)
}

#[tactic(auto, unfolding(crate::specs::Rows::with_told_routes))]
fn add_told_routes(routes: &mut Router<Route>) -> Result<(), AllocError>
    ensures { OnOk result (routes.new ≡ rows.with_told_routes routes.old) }
{
    add(routes, "/sessions/{s}/conflict", Route::Conflict)?;
    add(routes, "/sessions/{s}/log", Route::Log)
}

#[tactic(auto, unfolding(crate::specs::Rows::with_shown_routes))]
fn add_shown_routes(routes: &mut Router<Route>) -> Result<(), AllocError>
    ensures { OnOk result (routes.new ≡ rows.with_shown_routes routes.old) }
{
    add(routes, "/sessions/{s}/bill", Route::Bill)?;
    add(routes, "/sessions/{s}/routing", Route::Routing)
}

#[tactic(auto, unfolding(crate::specs::Rows::with_kept_routes))]
fn add_kept_routes(routes: &mut Router<Route>) -> Result<(), AllocError>
    ensures { OnOk result (routes.new ≡ rows.with_kept_routes routes.old) }
{
    add(routes, "/sessions/{s}/save", Route::Save)?;
    add(routes, "/sessions/{s}/load", Route::Load)
}

/// A router of all routes. It is made once, as it takes memory.
#[tactic(auto, unfolding(crate::specs::Rows::route_rows))]
pub fn new_routes(alloc: Global) -> Result<Router<Route>, AllocError>
    ensures { IfOk result (λ routes. routes ≡ rows.route_rows) }
{
    let mut routes = Router::new(alloc);
    add_whole_routes(&mut routes)?;
    add_value_routes(&mut routes)?;
    add_asking_routes(&mut routes)?;
    add_told_routes(&mut routes)?;
    add_shown_routes(&mut routes)?;
    add_kept_routes(&mut routes)?;
    Ok(routes)
}

fn search_route(routes: &Router<Route>, path: &str) -> Option<Route>
    ensures { result ≡ option_map (λ found. found.value) (first routes.now path.now) }
{
    match routes.at(path) {
        Ok(found) => Some(*found.value),
        Err(_) => None,
    }
}

/// The route of a path, which has no query behind it.
pub fn find_route(routes: &Router<Route>, path: &str) -> Option<Route>
    requires { routes.now ≡ rows.route_rows }
    ensures { result ≡ route_at path.now }
{
    search_route(routes, path)
}
