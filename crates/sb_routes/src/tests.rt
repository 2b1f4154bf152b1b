//! Routes and priorities over all subsets of what they name.

ghost use Rattle.std.specs.Prelude.{◌≤ℤ◌, IsTrue, IfOk, pos};
ghost use Rattle.sb_routes.specs.Ways.{levels_fit};

use crate::*;
use sb_log::*;
use std::alloc::Global;
use std::test::Fail;

const NEAR: Handle = Handle(7);

const FAR: Handle = Handle(8);

fn name(alloc: Global, text: &str) -> Result<Name, Fail> {
    Ok(Name::new(alloc, text)?)
}

fn text(alloc: Global, text: &str) -> Result<Text, Fail> {
    Ok(Text::from_string(String::from_str(alloc, text)?))
}

fn add(routes: &mut Routes, ddl: Ddl) -> Result<(), Fail>
    requires { IsTrue (levels_fit ddl) }
{
    routes.reserve(&ddl)?;
    routes.apply(ddl);
    Ok(())
}

/// A route to `S` of instance FAR that names as much as its rank says.
fn route(alloc: Global, rank: u8, to: Option<Who>) -> Result<Ddl, Fail>
    ensures { IfOk result (λ ddl. IsTrue (levels_fit ddl)) }
{
    let service = if rank >= 2 {
        Some(text(alloc, "S")?)
    } else {
        None
    };
    Ok(Ddl::Route(RouteDef {
        name: name(alloc, "R")?,
        service,
        instance: if rank % 2 == 1 { Some(FAR) } else { None },
        to,
    }))
}

fn named(alloc: Global, names: bool, service: &str) -> Result<Option<Name>, Fail> {
    if names {
        Ok(Some(name(alloc, service)?))
    } else {
        Ok(None)
    }
}

/// A priority of contract `C`, local `L` and remote `S` that names what its rank says.
fn priority(alloc: Global, rank: u8, level: i64) -> Result<Ddl, Fail>
    requires low { pos 1 ≤ℤ level }
    requires high { level ≤ℤ pos 10 }
    ensures { IfOk result (λ ddl. IsTrue (levels_fit ddl)) }
{
    let remote = if rank % 2 == 1 {
        Some(text(alloc, "S")?)
    } else {
        None
    };
    Ok(Ddl::Priority(PriorityDef {
        name: name(alloc, "P")?,
        contract: named(alloc, rank / 4 == 1, "C")?,
        local: named(alloc, rank / 2 % 2 == 1, "L")?,
        remote,
        level,
    }))
}

/// Routes of the ranks in the set; the one of rank `top` alone leads to B.
fn routes_of(alloc: Global, set: u8, top: u8) -> Result<Routes, Fail> {
    let mut routes = Routes::new(alloc, Who::A);
    for rank in 0..4u8 {
        if set >> rank & 1 == 1 {
            let to = if rank == top { Some(Who::B) } else { None };
            let ddl = route(alloc, rank, to)?;
            add(&mut routes, ddl)?;
        }
    }
    Ok(routes)
}

/// AutoCreatedLocal stands before a route that names nothing.
#[test]
fn the_best_of_each_set_of_routes_leads(rt: HostRuntime) -> Result<(), Fail> {
    let alloc = rt.alloc();
    let service = name(alloc, "S")?;
    for set in 0..16u8 {
        for top in 0..4u8 {
            let routes = routes_of(alloc, set, top)?;
            let leads = routes.route(&service, Some(FAR)) == Who::B;
            assert_eq!(rt; leads, top > 0 && set >> top == 1);
        }
    }
    Ok(())
}

#[test]
fn routes_of_others_lead_nowhere(rt: HostRuntime) -> Result<(), Fail> {
    let alloc = rt.alloc();
    let service = name(alloc, "S")?;
    let other = name(alloc, "T")?;
    let by_service = routes_of(alloc, 15, 2)?;
    assert_eq!(rt; by_service.route(&service, Some(NEAR)), Who::B);
    assert_eq!(rt; by_service.route(&service, None), Who::B);
    assert_eq!(rt; by_service.route(&other, Some(FAR)), Who::A);
    let by_instance = routes_of(alloc, 15, 1)?;
    assert_eq!(rt; by_instance.route(&other, Some(FAR)), Who::B);
    assert_eq!(rt; by_instance.route(&other, Some(NEAR)), Who::A);
    assert_eq!(rt; by_instance.route(&other, None), Who::A);
    Ok(())
}

#[test]
fn the_first_of_equal_routes_leads(rt: HostRuntime) -> Result<(), Fail> {
    let alloc = rt.alloc();
    let service = name(alloc, "S")?;
    let mut routes = Routes::new(alloc, Who::B);
    let first = route(alloc, 3, Some(Who::A))?;
    add(&mut routes, first)?;
    let second = route(alloc, 3, None)?;
    add(&mut routes, second)?;
    assert_eq!(rt; routes.route(&service, Some(FAR)), Who::A);
    assert_eq!(rt; routes.route(&service, Some(NEAR)), Who::B);
    Ok(())
}

/// Priorities of the ranks in the set; the level of each is its rank and one.
fn priorities_of(alloc: Global, set: u32) -> Result<Routes, Fail> {
    let mut routes = Routes::new(alloc, Who::A);
    for rank in 0..8u8 {
        if set >> rank & 1 == 1 {
            let ddl = priority(alloc, rank, i64::from(rank) + 1)?;
            add(&mut routes, ddl)?;
        }
    }
    Ok(routes)
}

fn level(alloc: Global, routes: &Routes, names: [&str; 3]) -> Result<u8, Fail> {
    let [contract, local, remote] = names;
    let contract = name(alloc, contract)?;
    let local = name(alloc, local)?;
    let remote = name(alloc, remote)?;
    Ok(routes.level(&contract, &local, &remote))
}

/// The greatest rank of a set is the place of its highest bit.
#[test]
fn the_best_of_each_set_of_priorities_counts(rt: HostRuntime) -> Result<(), Fail> {
    let alloc = rt.alloc();
    for set in 0..256u32 {
        let routes = priorities_of(alloc, set)?;
        let best = if set == 0 {
            5
        } else {
            32 - set.leading_zeros()
        };
        assert_eq!(rt; u32::from(level(alloc, &routes, ["C", "L", "S"])?), best);
    }
    Ok(())
}

#[test]
fn priorities_of_others_do_not_count(rt: HostRuntime) -> Result<(), Fail> {
    let alloc = rt.alloc();
    let routes = priorities_of(alloc, 255)?;
    assert_eq!(rt; level(alloc, &routes, ["D", "L", "S"])?, 4);
    assert_eq!(rt; level(alloc, &routes, ["C", "M", "S"])?, 6);
    assert_eq!(rt; level(alloc, &routes, ["C", "L", "T"])?, 7);
    assert_eq!(rt; level(alloc, &routes, ["D", "M", "T"])?, 1);
    Ok(())
}

#[test]
fn the_first_of_equal_priorities_counts(rt: HostRuntime) -> Result<(), Fail> {
    let alloc = rt.alloc();
    let mut routes = Routes::new(alloc, Who::A);
    let first = priority(alloc, 6, 3)?;
    add(&mut routes, first)?;
    let second = priority(alloc, 6, 9)?;
    add(&mut routes, second)?;
    let table = Ddl::Table(TableDef {
        name: name(alloc, "T")?,
    });
    add(&mut routes, table)?;
    assert_eq!(rt; level(alloc, &routes, ["C", "L", "S"])?, 3);
    Ok(())
}
