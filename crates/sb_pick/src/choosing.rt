//! The group of the first candidate, and the numbers of that group's.

ghost use Rattle.std.specs.Prelude.{◌≡◌, ◌-◌, IfOk, filter, map, option_map};
ghost use Rattle.sb_pick.specs.Offered.{chosen, is_of_group};
ghost use Rattle.sb_pick.specs.Picked.{up_to};

use crate::candidates::Candidate;
use sb_log::{GroupId, Listed, Picked};
use std::alloc::{AllocError, Global};

fn less_one(left: Option<u64>) -> Option<u64>
    ensures { result ≡ option_map (λ count. count - 1) left }
{
    left.map(|count| count.saturating_sub(1))
}

/// The numbers of the group's candidates, up to the limit.
fn numbers(
    alloc: Global,
    sorted: &[Candidate],
    group: GroupId,
    top: Option<u64>,
) -> Result<Vec<u64>, AllocError>
    ensures { IfOk result (λ numbers. numbers.items ≡ map (λ c. c.number) (up_to top (filter (is_of_group group) sorted.now))) }
{
    let mut numbers = Vec::new(alloc);
    let mut left = top;
    for candidate in sorted {
        if left == Some(0) {
            return Ok(numbers);
        }
        if candidate.group == group {
            numbers.push(candidate.number)?;
            left = less_one(left);
        }
    }
    Ok(numbers)
}

/// The group of the first, and the first numbers of that group.
pub(crate) fn choose(
    alloc: Global,
    sorted: &[Candidate],
    top: Option<u64>,
) -> Result<Picked, AllocError>
    ensures { IfOk result (λ it. it ≡ chosen top sorted.now) }
{
    match sorted.first() {
        None => Ok(Picked {
            group: None,
            items: Listed::new(alloc),
        }),
        Some(first) => {
            let numbers = numbers(alloc, sorted, first.group, top)?;
            Ok(Picked {
                group: Some(first.group),
                items: Listed::from_vec(numbers),
            })
        }
    }
}
