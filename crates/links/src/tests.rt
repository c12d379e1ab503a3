ghost use Rattle.std.specs.Prelude.{◌≡◌, ◌<◌};

use crate::{Chain, Steps};
use std::alloc::{AllocError, Global};
use std::marker::Brand;
use std::sync::ledger::{Blank, Ledger};
use std::test::Fail;

// The front of a chain that is empty, has 8 and 3, and has 3 alone, and what stands beside 8 and 3.
fn come_and_go<L: Ledger>(
    alloc: Global,
    blank: Blank,
) -> Result<([Option<u32>; 3], [Option<u32>; 4]), AllocError>
    requires name { blank.name ≡ L.name }
    requires parts { blank.parts ≡ L.parts }
    requires some { 0 < blank.parts }
{
    let mut steps = Steps::<L>::new(blank);
    let mut chain = Chain::with_room(alloc, 4)?;
    let empty = chain.front(&mut steps);
    chain.push_front(3, &mut steps);
    chain.reserve(9)?;
    chain.push_front(8, &mut steps);
    let front = chain.front(&mut steps);
    let (last, end) = (chain.next(8, &mut steps), chain.next(3, &mut steps));
    let (before, start) = (chain.prev(3, &mut steps), chain.prev(8, &mut steps));
    chain.remove(8, &mut steps);
    let left = chain.front(&mut steps);
    Ok(([empty, front, left], [last, end, before, start]))
}

#[test]
fn nodes_come_and_go_at_the_front(rt: HostRuntime) -> Result<(), Fail> {
    let (fronts, beside) = come_and_go::<Brand>(rt.alloc(), Blank::new(1))?;
    assert_eq!(rt; fronts, [None, Some(8), Some(3)]);
    assert_eq!(rt; beside, [Some(3), None, Some(8), None]);
    Ok(())
}

// The front of a chain of 0, 1 and 3, and what stands on either side of 1.
fn put_beside<L: Ledger>(alloc: Global, blank: Blank) -> Result<[Option<u32>; 3], AllocError>
    requires name { blank.name ≡ L.name }
    requires parts { blank.parts ≡ L.parts }
    requires some { 0 < blank.parts }
{
    let mut steps = Steps::<L>::new(blank);
    let mut chain = Chain::with_room(alloc, 4)?;
    chain.push_front(1, &mut steps);
    chain.insert_before(1, 0, &mut steps);
    chain.insert_after(1, 3, &mut steps);
    let front = chain.front(&mut steps);
    let first = chain.prev(1, &mut steps);
    let last = chain.next(1, &mut steps);
    Ok([front, first, last])
}

#[test]
fn nodes_are_put_on_either_side_of_another(rt: HostRuntime) -> Result<(), Fail> {
    let seen = put_beside::<Brand>(rt.alloc(), Blank::new(1))?;
    assert_eq!(rt; seen, [Some(0), Some(0), Some(3)]);
    Ok(())
}
