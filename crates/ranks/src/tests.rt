ghost use Rattle.std.specs.Prelude.{◌≡◌, ◌<◌};

use crate::Ranks;
use links::Steps;
use std::alloc::{AllocError, Global};
use std::marker::Brand;
use std::sync::ledger::{Blank, Ledger};
use std::test::Fail;

// The front with one node, with two, once the front has come to rank 0, and with none.
fn fronts<L: Ledger>(
    alloc: Global,
    blank: Blank,
) -> Result<([Option<u32>; 4], [bool; 2]), AllocError>
    requires name { blank.name ≡ L.name }
    requires parts { blank.parts ≡ L.parts }
    requires some { 0 < blank.parts }
{
    let mut steps = Steps::<L>::new(blank);
    let mut ranks = Ranks::with_room(alloc, 4)?;
    ranks.push_front(3, 2, &mut steps);
    let one = ranks.front(&mut steps);
    ranks.push_front(1, 1, &mut steps);
    let two = ranks.front(&mut steps);
    let last = [ranks.is_last(1, &mut steps), ranks.is_last(3, &mut steps)];
    ranks.lower_front(1, &mut steps);
    let left = ranks.front(&mut steps);
    ranks.raise(3, &mut steps);
    ranks.remove(3, &mut steps);
    let none = ranks.front(&mut steps);
    Ok(([one, two, left, none], last))
}

#[test]
fn nodes_come_and_go_by_rank(rt: HostRuntime) -> Result<(), Fail> {
    let (fronts, last) = fronts::<Brand>(rt.alloc(), Blank::new(1))?;
    assert_eq!(rt; fronts, [Some(3), Some(1), Some(3), None]);
    assert_eq!(rt; last, [false, true]);
    Ok(())
}
