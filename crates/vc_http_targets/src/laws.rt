//! Laws of the table, each the contract of a function that does nothing.

ghost use Rattle.std.specs.Prelude.{◌≡◌, is_some};
ghost use Rattle.vc_http_routes.specs.Methods.{has_method};
ghost use Rattle.vc_http_routes.specs.Routes.{methods_of};
ghost use Rattle.vc_http_targets.specs.Asked as asked;

use vc_http_routes::{Method, Route};

/// Something is wanted of a route by each of its methods, and by no other.
pub fn methods_are_wanted(route: Route, method: Method)
    ensures { has_method (methods_of route) method ≡ is_some (asked.verb_for route method) }
{}
