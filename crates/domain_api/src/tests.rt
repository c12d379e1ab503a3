ghost use Rattle.std.specs.Prelude.{◌≡◌, ◌^◌, ◌<◌, []};
ghost use Rattle.extents.specs.Extent.{AreDisjoint};
ghost use Rattle.debug_guard.specs.Guard.{guard_extent};
ghost use Rattle.domain_api.specs.Domains.{IsGivenUp};
ghost use Rattle.domain_api.specs.Held.{AreHeld, DomainsView, IsLoan};

use crate::{Asked, Domains, Got, Made};
use debug_guard::{Guarded, peek, size};
use mem_base::{Ask, Counts, Grant, Letter, View};
use sources::{ArenaSource, MemArenas, MemRaw, RawSource};
use std::alloc::{AllocError, Global};
use std::test::Fail;

// This takes only what can go to another thread.
fn crosses<T: Send>(_value: &T) {}

// What a test sees of a block that is given up then.
#[derive(Drop)]
struct Seen {
    asked: Asked,
    size: u64,
    begins_with_zeros: bool,
    counts: Counts,
    view: Result<View, AllocError>,
}

// Gives up the one block of the domains, and then the domains.
fn give_up<A: ArenaSource, R: RawSource>(
    mut domains: Domains,
    block: Guarded,
    asked: Asked,
    arenas: &mut A,
    raws: &mut R,
) -> Seen
    requires loan { IsLoan (guard_extent block) domains }
    requires one { (last : DomainsView) → IsGivenUp block domains last
        → (last.heap.loans ≡ []) × (last.raws ≡ []) }
    requires held { AreHeld domains (A.seen arenas.old) (R.seen raws.old) }
{
    let seen = Seen {
        asked,
        size: size(&block),
        begins_with_zeros: matches!(peek(&block, 0, 4), Some([0, 0, 0, 0])),
        counts: domains.counts(),
        view: domains.view(),
    };
    domains.drop_block(block, arenas, raws);
    domains.end(arenas, raws);
    seen
}

// Makes a block of n bytes in new domains, and gives it up.
fn one_block<A: ArenaSource, R: RawSource>(
    alloc: Global,
    letter: Letter,
    n: u64,
    arenas: &mut A,
    raws: &mut R,
) -> Result<Option<Seen>, AllocError>
    requires arenas { (A.seen arenas.old).asked < 2 ^ 63 }
    requires raws { (R.seen raws.old).asked < 2 ^ 63 }
    requires apart { AreDisjoint (A.seen arenas.old).window (R.seen raws.old).window }
{
    let mut domains = Domains::new(alloc)?;
    crosses(&domains);
    let Made { got, asked } = match domains.malloc(letter, n, true, arenas, raws) {
        Ok(made) => made,
        Err(error) => {
            domains.end(arenas, raws);
            return Err(error);
        }
    };
    match got {
        Got::Block(block) => Ok(Some(give_up(domains, block, asked, arenas, raws))),
        Got::Null | Got::Fault(_) => {
            domains.end(arenas, raws);
            Ok(None)
        }
    }
}

// Makes a block of zeros for so many elements in new domains, and gives it up.
fn one_zeroed<A: ArenaSource, R: RawSource>(
    alloc: Global,
    letter: Letter,
    elements: (u64, u64),
    arenas: &mut A,
    raws: &mut R,
) -> Result<Option<Seen>, AllocError>
    requires arenas { (A.seen arenas.old).asked < 2 ^ 63 }
    requires raws { (R.seen raws.old).asked < 2 ^ 63 }
    requires apart { AreDisjoint (A.seen arenas.old).window (R.seen raws.old).window }
{
    let mut domains = Domains::new(alloc)?;
    let Made { got, asked } = match domains.calloc(
        letter, elements.0, elements.1, true, arenas, raws,
    ) {
        Ok(made) => made,
        Err(error) => {
            domains.end(arenas, raws);
            return Err(error);
        }
    };
    match got {
        Got::Block(block) => Ok(Some(give_up(domains, block, asked, arenas, raws))),
        Got::Null | Got::Fault(_) => {
            domains.end(arenas, raws);
            Ok(None)
        }
    }
}

#[test]
fn a_block_of_488_bytes_lies_in_a_pool(rt: HostRuntime) -> Result<(), Fail> {
    let mut arenas = MemArenas::new(rt.alloc())?;
    let mut raws = MemRaw::new(rt.alloc())?;
    match one_block(rt.alloc(), Letter::Mem, 488, &mut arenas, &mut raws)? {
        Some(seen) => {
            let view = seen.view?;
            assert_eq!(rt;
                seen.asked,
                Asked {
                    arena: Grant::Granted(64),
                    raw: Ask::NotAsked
                }
            );
            assert_eq!(rt; (seen.counts.out, seen.counts.pooled), (1, 1));
            assert_eq!(rt; (view.pooled, view.raws), (1, 0));
        }
        None => assert!(rt; false),
    }
    Ok(())
}

#[test]
fn a_block_of_489_bytes_is_a_region(rt: HostRuntime) -> Result<(), Fail> {
    let mut arenas = MemArenas::new(rt.alloc())?;
    let mut raws = MemRaw::new(rt.alloc())?;
    match one_block(rt.alloc(), Letter::Obj, 489, &mut arenas, &mut raws)? {
        Some(seen) => {
            let view = seen.view?;
            assert_eq!(rt;
                seen.asked,
                Asked {
                    arena: Grant::NotAsked,
                    raw: Ask::Granted
                }
            );
            assert_eq!(rt; (seen.counts.out, seen.counts.pooled), (0, 0));
            assert_eq!(rt; (view.pooled, view.raws), (0, 1));
        }
        None => assert!(rt; false),
    }
    Ok(())
}

#[test]
fn a_calloc_of_three_times_40_bytes_is_120_zeros_in_a_pool(rt: HostRuntime) -> Result<(), Fail> {
    let mut arenas = MemArenas::new(rt.alloc())?;
    let mut raws = MemRaw::new(rt.alloc())?;
    match one_zeroed(rt.alloc(), Letter::Mem, (3, 40), &mut arenas, &mut raws)? {
        Some(seen) => {
            assert_eq!(rt; seen.asked.raw, Ask::NotAsked);
            assert_eq!(rt; (seen.size, seen.begins_with_zeros), (120, true));
            assert_eq!(rt; (seen.counts.out, seen.counts.pooled), (1, 1));
        }
        None => assert!(rt; false),
    }
    Ok(())
}
