//! Where messages for a service go.

ghost use Rattle.std.specs.Prelude.{◌≡◌, [], ◌∷◌, ◌||◌, filter, flat_map, fold, is_none, option_map, option_to_list};
ghost use Rattle.std.specs.Option.{option_eq};
ghost use Rattle.sb_model.specs.Sides.{same_id};
ghost use Rattle.sb_model.specs.Catalog.{ddl_of, definitions, route_def, routes};
ghost use Rattle.sb_model.specs.Matches.{admits, best_by, better};
ghost use Rattle.sb_model.specs.Routes.{route, route_fit, route_fits};
ghost use Rattle.sb_model.specs.Groups.{far_service, own_service};
ghost use Rattle.sb_model.specs.Frames.{destination, far_instance};
ghost use Rattle.sb_scan.specs.Seen.{making_of, route_seen};

use crate::making::MadeSide;
use sb_log::{Ddl, Entry, Handle, Header, Name, RouteDef, SideId, Text, Who};

/// A route, as it stands in the log or is built in.
#[derive(Clone, Copy)]
pub enum SeenRoute<'a> {
    BuiltIn,
    Defined(&'a RouteDef),
}

fn admits(own: &Option<Text>, service: &Name) -> bool
    ensures { result ≡ admits own.now service.now }
{
    match own {
        None => true,
        Some(text) => text.as_str() == service.as_str(),
    }
}

fn leads_to(own: Option<Handle>, instance: Option<Handle>) -> bool
    ensures { result ≡ (is_none own || option_eq same_id own instance) }
{
    match own {
        None => true,
        Some(id) => match instance {
            None => false,
            Some(named) => id == named,
        },
    }
}

fn fits(route: SeenRoute<'_>, service: &Name, instance: Option<Handle>) -> bool
    ensures { result ≡ route_fits service.now instance (route_seen route.entry) }
{
    match route {
        SeenRoute::BuiltIn => true,
        SeenRoute::Defined(def) => {
            admits(&def.service, service) && leads_to(def.instance, instance)
        }
    }
}

fn route_fit(route: SeenRoute<'_>) -> u8
    ensures { result ≡ route_fit (route_seen route.entry) }
{
    match route {
        SeenRoute::BuiltIn => 0,
        SeenRoute::Defined(def) => {
            let service = if def.service.is_some() { 2 } else { 0 };
            let instance = if def.instance.is_some() { 1 } else { 0 };
            service + instance
        }
    }
}

fn better<'a>(best: Option<SeenRoute<'a>>, route: SeenRoute<'a>) -> Option<SeenRoute<'a>>
    ensures { option_map route_seen result ≡ better route_fit (option_map route_seen best.entry) (route_seen route.entry) }
{
    let Some(known) = best else {
        return Some(route);
    };
    let fit = route_fit(route);
    let most = route_fit(known);
    if fit == most {
        Some(known)
    } else if fit.max(most) == fit {
        Some(route)
    } else {
        Some(known)
    }
}

fn route_in(entry: &Entry) -> Option<SeenRoute<'_>>
    ensures { option_to_list (option_map route_seen result) ≡ flat_map route_def (ddl_of entry.now) }
{
    match entry {
        Entry::Defined(Ddl::Route(def)) => Some(SeenRoute::Defined(def)),
        _ => None,
    }
}

fn taken_up<'a>(
    best: Option<SeenRoute<'a>>,
    entry: &'a Entry,
    service: &Name,
    instance: Option<Handle>,
) -> Option<SeenRoute<'a>>
    ensures { option_map route_seen result ≡ fold (better route_fit) (option_map route_seen best.entry) (filter (route_fits service.now instance) (flat_map route_def (ddl_of entry.now))) }
{
    match route_in(entry) {
        None => best,
        Some(route) => {
            if fits(route, service, instance) {
                better(best, route)
            } else {
                best
            }
        }
    }
}

#[tactic(auto, using(crate::proofs::Looking::folding))]
fn best_route<'a>(
    log: &'a [Entry],
    service: &Name,
    instance: Option<Handle>,
) -> Option<SeenRoute<'a>>
    ensures { option_map route_seen result ≡ best_by route_fit (filter (route_fits service.now instance) (routes log.now)) }
{
    let mut best = Some(SeenRoute::BuiltIn);
    for entry in log {
        best = taken_up(best, entry, service, instance);
    }
    best
}

/// The instance to which a message for this service of this instance goes, by the
/// first of the best routes.
pub fn route(log: &[Entry], who: Who, service: &Name, instance: Option<Handle>) -> Who
    ensures { result ≡ route log.now who service.now instance }
{
    match best_route(log, service, instance) {
        None => who,
        Some(SeenRoute::BuiltIn) => who,
        Some(SeenRoute::Defined(def)) => match def.to {
            None => who,
            Some(to) => to,
        },
    }
}

/// The service on the partner's end of the side's header.
pub fn far_service(side: SideId, header: &Header) -> &Name
    ensures { result.now ≡ far_service side header.now }
{
    if side.initiator {
        &header.to_service
    } else {
        &header.from_service
    }
}

fn far_instance(made: MadeSide<'_>) -> Option<Handle>
    ensures { result ≡ far_instance (making_of made.entry) }
{
    if made.side.initiator {
        made.header.to
    } else {
        Some(made.header.from)
    }
}

/// Where the side's messages go.
pub fn destination(who: Who, log: &[Entry], made: MadeSide<'_>) -> Who
    ensures { result ≡ destination who log.now (making_of made.entry) }
{
    route(
        log,
        who,
        far_service(made.side, made.header),
        far_instance(made),
    )
}
