//! What a path names.

ghost use Rattle.std.specs.Prelude.{◌≡◌, ◌+◌, ◌<◌, drop, length, position, slice_get, take, IfSome};
ghost use Rattle.std.specs.List.{slice_split};
ghost use Rattle.std.specs.Option.{option_map};
ghost use Rattle.vc_http_routes.specs.Routes.{is_slash};
ghost use Rattle.vc_http_routes.specs.Rows.{route_rows};
ghost use Rattle.vc_http_targets.specs.Targets as targets;

use matchit::Router;
use vc_http_routes::{Route, find_route};
use vc_value::{is_name, is_session_name};
use vc_wire_requests::cutting::index_of;

/// What a route is asked of, as a path spells it; a characteristic in any case.
#[derive(Clone, Copy, Debug)]
pub enum Target<'p> {
    All,
    Session(&'p [u8]),
    Characteristic(&'p [u8], u32, &'p [u8]),
    Saved(&'p [u8]),
}

fn first_slash(path: &[u8]) -> Option<usize>
    ensures place { result ≡ position is_slash path.now }
    ensures within { IfSome result (λ place. place < length path.now) }
{
    path.iter().position(|byte| *byte == b'/')
}

fn front_of(path: &[u8], place: usize) -> &[u8]
    requires { place < length path.now }
    ensures { result.now ≡ take place path.now }
{
    &path[..place]
}

fn rest_of(path: &[u8], place: usize) -> &[u8]
    requires { place < length path.now }
    ensures { result.now ≡ drop (place + 1) path.now }
{
    &path[place + 1..]
}

// The first segment, and the text of the others, if there are any.
#[tactic(auto, using(crate::proofs::SplitLaws::none_cut))]
fn cut_at_slash(path: &[u8]) -> (&[u8], Option<&[u8]>)
    ensures { targets.Cuts path.now result.0.now (option_map (λ rest. rest.now) result.1) }
{
    match first_slash(path) {
        Some(place) => (front_of(path, place), Some(rest_of(path, place))),
        None => (path, None),
    }
}

// The segment at this place.
#[tactic(auto, using(crate::proofs::SplitLaws::segment_rules))]
fn segment_at(path: &[u8], place: usize) -> Option<&[u8]>
    ensures { option_map (λ segment. segment.now) result ≡ slice_get (slice_split is_slash path.now) place }
{
    let mut rest = path;
    let mut left = place;
    while left > 0 {
        match cut_at_slash(rest) {
            (_, Some(more)) => rest = more,
            (_, None) => return None,
        }
        left -= 1;
    }
    Some(cut_at_slash(rest).0)
}

// A path from behind its first slash.
fn session_in(path: &[u8]) -> Option<&[u8]>
    ensures { option_map (λ name. name.now) result ≡ targets.session_in (slice_split is_slash path.now) }
{
    let word = segment_at(path, 1)?;
    if is_session_name(word) {
        Some(word)
    } else {
        None
    }
}

fn characteristic_in(path: &[u8]) -> Option<Target<'_>>
    ensures { option_map targets.aim_said result ≡ targets.characteristic_in (slice_split is_slash path.now) }
{
    let name = session_in(path)?;
    let word = segment_at(path, 3)?;
    let number = index_of(word)?;
    let last = segment_at(path, 4)?;
    if is_name(last) {
        Some(Target::Characteristic(name, number, last))
    } else {
        None
    }
}

fn target_in(route: Route, path: &[u8]) -> Option<Target<'_>>
    ensures { option_map targets.aim_said result ≡ targets.aim_of route (slice_split is_slash path.now) }
{
    match route {
        Route::Sessions => Some(Target::All),
        Route::Values | Route::Drops | Route::Why | Route::WhyNot => characteristic_in(path),
        Route::Saved => {
            let name = session_in(path)?;
            Some(Target::Saved(name))
        }
        _ => {
            let name = session_in(path)?;
            Some(Target::Session(name))
        }
    }
}

/// The route of a path, and what it is asked of.
pub fn find_target<'p>(routes: &Router<Route>, path: &'p str) -> Option<(Route, Target<'p>)>
    requires { routes.now ≡ route_rows }
    ensures { option_map (λ found. (found.0, targets.aim_said found.1)) result ≡ targets.target_at path.now }
{
    let route = find_route(routes, path)?;
    let (_, more) = path.as_bytes().split_first()?;
    let target = target_in(route, more)?;
    Some((route, target))
}
