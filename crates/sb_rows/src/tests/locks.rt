//! Two transactions over two keys of two tables.

use crate::tests::made::{let_go, name};
use crate::{RowHeld, Tables};
use std::alloc::Global;
use std::process::Abort;
use std::test::Fail;

/// Who is to hold each of the four places, told by a plain list.
#[derive(Drop)]
struct Wanted {
    holders: [Option<u64>; 4],
}

impl Wanted {
    /// The answer that a lock is to have, which is noted.
    fn lock(&mut self, place: usize, tx: u64) -> Result<(), RowHeld> {
        let place = place % 4;
        match self.holders[place] {
            Some(by) if by != tx => Err(RowHeld { by }),
            _ => {
                self.holders[place] = Some(tx);
                Ok(())
            }
        }
    }

    fn unlock_all(&mut self, tx: u64) {
        for place in 0..4 {
            if self.holders[place] == Some(tx) {
                self.holders[place] = None;
            }
        }
    }
}

/// The table and key of a place.
fn place_of(place: usize) -> (&'static str, i64) {
    match place % 4 {
        0 => ("A", -1),
        1 => ("A", 2),
        2 => ("B", -1),
        _ => ("B", 2),
    }
}

fn lock(
    alloc: Global,
    tables: &mut Tables,
    place: usize,
    tx: u64,
) -> Result<Result<(), RowHeld>, Fail> {
    let (table, key) = place_of(place);
    let table = name(alloc, table)?;
    tables.reserve(1)?;
    Ok(tables.lock(table, key, tx))
}

fn holder(alloc: Global, tables: &Tables, place: usize) -> Result<Option<u64>, Fail> {
    let (table, key) = place_of(place);
    let table = name(alloc, table)?;
    Ok(tables.holder(&table, key))
}

fn compare(rt: &impl Abort, alloc: Global, tables: &Tables, wanted: &Wanted) -> Result<(), Fail> {
    for place in 0..4 {
        let holder = holder(alloc, tables, place)?;
        assert_eq!(rt; holder, wanted.holders[place], "place {place}");
    }
    Ok(())
}

/// A transaction locks its two places and lets go of them, over and over.
fn step(
    rt: &impl Abort,
    alloc: Global,
    tables: &mut Tables,
    wanted: &mut Wanted,
    tx: u64,
    place: Option<usize>,
) -> Result<(), Fail> {
    match place {
        None => {
            tables.unlock_all(tx);
            wanted.unlock_all(tx);
        }
        Some(place) => {
            let answer = lock(alloc, tables, place, tx)?;
            assert_eq!(rt; answer, wanted.lock(place, tx), "{tx} at {place}");
        }
    }
    compare(rt, alloc, tables, wanted)
}

/// The place of a turn of the first transaction, or none where it lets go.
fn first_place(turn: u32) -> Option<usize> {
    match turn % 3 {
        0 => Some(0),
        1 => Some(3),
        _ => None,
    }
}

fn second_place(turn: u32, route: usize) -> Option<usize> {
    match turn % 3 {
        0 => Some(route % 4),
        1 => Some(route / 4),
        _ => None,
    }
}

/// Seven turns, each of the transaction that a bit of the order names.
fn run(
    rt: &impl Abort,
    alloc: Global,
    tables: &mut Tables,
    order: u32,
    route: usize,
) -> Result<(), Fail> {
    let mut wanted = Wanted { holders: [None; 4] };
    let mut first = 0u32;
    let mut second = 0u32;
    for turn in 0..7u32 {
        if (order >> turn) % 2 == 0 {
            let place = first_place(first);
            step(rt, alloc, tables, &mut wanted, 1, place)?;
            first = first.saturating_add(1);
        } else {
            let place = second_place(second, route);
            step(rt, alloc, tables, &mut wanted, 2, place)?;
            second = second.saturating_add(1);
        }
    }
    Ok(())
}

fn run_anew(rt: &impl Abort, alloc: Global, order: u32, route: usize) -> Result<(), Fail> {
    let mut tables = Tables::new(alloc);
    let outcome = run(rt, alloc, &mut tables, order, route);
    let_go(tables);
    outcome
}

#[test]
fn a_key_is_held_by_one_in_every_order(rt: HostRuntime) -> Result<(), Fail> {
    for order in 0..128u32 {
        for route in 0..16usize {
            run_anew(&rt, rt.alloc(), order, route)?;
        }
    }
    Ok(())
}
