//! An instance's routes and priorities.

ghost use Rattle.std.specs.Prelude.{◌≡◌, ◌<◌, ◌++◌, [], ◌∷◌, IsTrue, OnOk, OnErr, vec_capacity, vec_len};
ghost use Rattle.sb_model.specs.Catalog.{priority_def, route_def};
ghost use Rattle.sb_routes.specs.Ways.{KeepsDefinitions, best_level, destination, has_room, levels_fit};

use crate::levels::{best_priority, level_number};
use crate::routing::best_route;
use sb_log::{Ddl, Handle, Name, PriorityDef, RouteDef, Who};
use std::alloc::{AllocError, Global};
use std::marker::Model;

/// The routes and broker priorities that were defined on an instance, in order, and
/// the route AutoCreatedLocal, which each instance has.
#[derive(Debug, Drop)]
pub struct Routes {
    who: Who,
    routes: Vec<RouteDef>,
    priorities: Vec<PriorityDef>,
}

impl Model for Routes {
    ghost use Rattle.std.specs.Prelude.{◌-◌, IsTrue, vec_len, vec_capacity};
    ghost use Rattle.std.specs.List.{list_all};
    ghost use Rattle.sb_routes.specs.Ways.{Ways, has_level};

    ghost Value = { Ways };

    ghost view = { λ r. record { who = r.who; routes = r.routes.items; priorities = r.priorities.items; route_room = vec_capacity r.routes - vec_len r.routes; priority_room = vec_capacity r.priorities - vec_len r.priorities } };

    ghost invariant = { λ r. IsTrue (list_all has_level r.priorities.items) };
}

fn push_within<T: Drop>(items: &mut Vec<T>, item: T)
    requires { vec_len items.old < vec_capacity items.old }
    ensures { items.new.items ≡ items.old.items ++ item ∷ [] }
{
    match items.push(item) {
        Ok(()) => {}
        Err(_) => unreachable!(),
    }
}

impl Routes {
    /// Nothing is defined yet; it takes no memory.
    pub fn new(alloc: Global, who: Who) -> Routes
        ensures who { result.who ≡ who }
        ensures routes { result.routes ≡ [] }
        ensures priorities { result.priorities ≡ [] }
    {
        Routes {
            who,
            routes: Vec::new(alloc),
            priorities: Vec::new(alloc),
        }
    }

    /// The instance to which a message for this service of this instance goes.
    ///
    /// A route that names the service and the instance comes before one that names the
    /// service alone, then the instance alone, then neither; the first of equals wins.
    pub fn route(&self, service: &Name, instance: Option<Handle>) -> Who
        ensures { result ≡ destination self.now.who self.now.routes service.now instance }
    {
        match best_route(self.routes.as_slice(), service, instance) {
            None => self.who,
            Some(route) => match route.to {
                None => self.who,
                Some(to) => to,
            },
        }
    }

    /// The level of a dialog's side, 1 to 10.
    ///
    /// What a priority names decides: contract, local and remote service; contract and
    /// local; contract and remote; contract; local and remote; local; remote; nothing.
    pub fn level(&self, contract: &Name, local: &Name, remote: &Name) -> u8
        ensures { result ≡ best_level self.now.priorities contract.now local.now remote.now }
    {
        match best_priority(self.priorities.as_slice(), contract, local, remote) {
            None => 5,
            Some(def) => level_number(def),
        }
    }

    /// Makes room, so that `apply` of this definition takes no memory.
    pub fn reserve(&mut self, ddl: &Ddl) -> Result<(), AllocError>
        ensures ready { OnOk result (IsTrue (has_room self.new ddl.now)) }
        ensures kept { KeepsDefinitions self.old self.new }
        ensures failed { OnErr result (self.new ≡ self.old) }
    {
        match ddl {
            Ddl::Route(_) => self.routes.reserve(1),
            Ddl::Priority(_) => self.priorities.reserve(1),
            _ => Ok(()),
        }
    }

    /// Takes up a definition; what is no route and no priority changes nothing.
    pub fn apply(&mut self, ddl: Ddl)
        requires room { IsTrue (has_room self.old ddl) }
        requires level { IsTrue (levels_fit ddl) }
        ensures who { self.new.who ≡ self.old.who }
        ensures routes { self.new.routes ≡ self.old.routes ++ route_def ddl }
        ensures priorities { self.new.priorities ≡ self.old.priorities ++ priority_def ddl }
    {
        match ddl {
            Ddl::Route(def) => push_within(&mut self.routes, def),
            Ddl::Priority(def) => push_within(&mut self.priorities, def),
            _ => {}
        }
    }
}
