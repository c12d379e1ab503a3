ghost use Rattle.std.specs.Prelude.{◌≡◌, ◌+◌, ◌^◌, ◌<◌, ◌≤◌};
ghost use Rattle.extents.specs.Sums.{AllIn};

use crate::{ArenaSource, AskError, MemArenas, MemRaw, RawSource};
use std::test::Fail;

// This takes only what can go to another thread.
fn crosses<T: Send>(_value: &T) {}

// The place of one more arena, which goes back at once.
fn next_arena<A: ArenaSource>(arenas: &mut A) -> Result<u64, AskError>
    requires { (A.seen arenas.old).asked < 2 ^ 63 }
    ensures asked { (A.seen arenas.new).asked ≡ (A.seen arenas.old).asked + 1 }
    ensures stays { AllIn (A.seen arenas.old).out (A.seen arenas.new).out }
{
    let region = arenas.ask()?;
    let place = region.base();
    arenas.give(region);
    Ok(place)
}

// The places of two arenas that are out at once, where the first request is granted.
fn two_arenas<A: ArenaSource>(arenas: &mut A) -> Result<(u64, Result<u64, AskError>), AskError>
    requires { (A.seen arenas.old).asked + 1 < 2 ^ 63 }
    ensures { (A.seen arenas.new).asked ≤ (A.seen arenas.old).asked + 2 }
{
    let first = arenas.ask()?;
    let place = first.base();
    let second = next_arena(arenas);
    arenas.give(first);
    Ok((place, second))
}

#[test]
fn arenas_take_the_least_free_slots_and_listed_requests_are_refused(
    rt: HostRuntime,
) -> Result<(), Fail> {
    let mut arenas = MemArenas::new(rt.alloc())?;
    crosses(&arenas);
    arenas.shape(2, 3);
    assert_eq!(rt;
        two_arenas(&mut arenas)?,
        (0x1000_0000_3000, Ok(0x1000_0010_3000))
    );
    assert_eq!(rt;
        two_arenas(&mut arenas)?,
        (0x1000_0000_3000, Ok(0x1000_0010_3000))
    );
    arenas.shape(1, 0);
    assert_eq!(rt;
        two_arenas(&mut arenas)?,
        (0x1000_0000_0000, Err(AskError::Refused))
    );
    arenas.refuse(2)?;
    assert_eq!(rt;
        two_arenas(&mut arenas)?,
        (0x1000_0000_0000, Err(AskError::Refused))
    );
    assert_eq!(rt; (arenas.asked(), arenas.refused()), (8, 2));
    Ok(())
}

// The place of one more raw region, which goes back at once.
fn next_raw<R: RawSource>(raws: &mut R, len: u64) -> Result<u64, AskError>
    requires count { (R.seen raws.old).asked < 2 ^ 63 }
    requires some { 1 ≤ len }
    ensures asked { (R.seen raws.new).asked ≡ (R.seen raws.old).asked + 1 }
    ensures stays { AllIn (R.seen raws.old).out (R.seen raws.new).out }
{
    let region = raws.ask(len)?;
    let place = region.base();
    raws.give(region);
    Ok(place)
}

// The places of two raw regions that are out at once, where the first request is granted.
fn two_raws<R: RawSource>(
    raws: &mut R,
    first_len: u64,
    second_len: u64,
) -> Result<(u64, Result<u64, AskError>), AskError>
    requires count { (R.seen raws.old).asked + 1 < 2 ^ 63 }
    requires some { (1 ≤ first_len) × (1 ≤ second_len) }
    ensures { (R.seen raws.new).asked ≤ (R.seen raws.old).asked + 2 }
{
    let first = raws.ask(first_len)?;
    let place = first.base();
    let second = next_raw(raws, second_len);
    raws.give(first);
    Ok((place, second))
}

#[test]
fn raw_regions_stand_side_by_side_and_listed_requests_are_refused(
    rt: HostRuntime,
) -> Result<(), Fail> {
    let mut raws = MemRaw::new(rt.alloc())?;
    crosses(&raws);
    assert_eq!(rt;
        two_raws(&mut raws, 8, 17)?,
        (0x2000_0000_0000, Ok(0x2000_0000_0010))
    );
    raws.shape(10);
    assert_eq!(rt;
        two_raws(&mut raws, 8, 3)?,
        (0x2000_0000_0030, Err(AskError::Refused))
    );
    raws.refuse(2)?;
    assert_eq!(rt;
        two_raws(&mut raws, 5, 5)?,
        (0x2000_0000_0040, Err(AskError::Refused))
    );
    assert_eq!(rt;
        two_raws(&mut raws, 5, 5)?,
        (0x2000_0000_0050, Ok(0x2000_0000_0060))
    );
    assert_eq!(rt; (raws.asked(), raws.refused()), (8, 2));
    Ok(())
}
