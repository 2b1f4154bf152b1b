//! The best of some routes.

ghost use Rattle.std.specs.Prelude.{◌≡◌, [], ◌∷◌, filter, fold, option_copied};
ghost use Rattle.sb_model.specs.Matches.{better};
ghost use Rattle.sb_model.specs.Routes.{route_fit, route_fits};
ghost use Rattle.sb_routes.specs.Ways.{best_route};
ghost use Rattle.sb_routes.specs.Taken.{or_auto};

use crate::matching::{admits_instance, admits_text, points};
use sb_log::{Handle, Name, RouteDef};

fn fits(route: &RouteDef, service: &Name, instance: Option<Handle>) -> bool
    ensures { result ≡ route_fits service.now instance route.now }
{
    admits_text(&route.service, service) && admits_instance(route.instance, instance)
}

fn rank(route: &RouteDef) -> u8
    ensures { result ≡ route_fit route.now }
{
    points(&route.service, 2) + points(&route.instance, 1)
}

fn rank_of(best: Option<&RouteDef>) -> u8
    ensures { result ≡ route_fit (or_auto (option_copied best.entry)) }
{
    match best {
        None => 0,
        Some(route) => rank(route),
    }
}

fn taken_up<'a>(
    best: Option<&'a RouteDef>,
    route: &'a RouteDef,
    service: &Name,
    instance: Option<Handle>,
) -> Option<&'a RouteDef>
    ensures { Some (or_auto (option_copied result)) ≡ fold (better route_fit) (Some (or_auto (option_copied best.entry))) (filter (route_fits service.now instance) (route.now ∷ [])) }
{
    if fits(route, service, instance) && rank_of(best) < rank(route) {
        Some(route)
    } else {
        best
    }
}

/// The first of the best of these routes and AutoCreatedLocal, for which None stands.
pub(crate) fn best_route<'a>(
    routes: &'a [RouteDef],
    service: &Name,
    instance: Option<Handle>,
) -> Option<&'a RouteDef>
    ensures { Some (or_auto (option_copied result)) ≡ best_route routes.now service.now instance }
{
    let mut best = None;
    for route in routes {
        best = taken_up(best, route, service, instance);
    }
    best
}
