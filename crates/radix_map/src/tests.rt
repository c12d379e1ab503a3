ghost use Rattle.std.specs.Prelude.{◌<◌};

use crate::RadixMap;
use std::alloc::{AllocError, Global};
use std::test::Fail;

const BASE: u64 = 0x1000_0000_1000;

const MIB: u64 = 0x10_0000;

#[test]
fn an_arena_has_its_mib(rt: HostRuntime) -> Result<(), Fail> {
    let mut map = RadixMap::new(rt.alloc())?;
    assert_eq!(rt; map.find(BASE), None);
    map.mark(BASE, 7)?;
    assert_eq!(rt; map.find(BASE - 1), None);
    assert_eq!(rt; map.find(BASE), Some(7));
    assert_eq!(rt; map.find(BASE + MIB - 1), Some(7));
    assert_eq!(rt; map.find(BASE + MIB), None);
    assert_eq!(rt; map.find(u64::MAX), None);
    Ok(())
}

// What is found at both ends of an arena that begins so many pages behind a MiB, and of the one behind it.
fn ends(alloc: Global, skew: u64) -> Result<[Option<u32>; 6], AllocError>
    requires { skew < 256 }
{
    let base = 0x1000_0000_0000 + skew * 0x1000;
    let mut map = RadixMap::new(alloc)?;
    map.mark(base, 1)?;
    if !map.is_free(base + MIB) {
        return Ok([None; 6]);
    }
    map.mark(base + MIB, 2)?;
    Ok([
        map.find(base - 1),
        map.find(base),
        map.find(base + MIB - 1),
        map.find(base + MIB),
        map.find(base + 2 * MIB - 1),
        map.find(base + 2 * MIB),
    ])
}

#[test]
fn arenas_behind_pages_have_just_their_bytes(rt: HostRuntime) -> Result<(), Fail> {
    let want = [None, Some(1), Some(1), Some(2), Some(2), None];
    assert_eq!(rt; ends(rt.alloc(), 1)?, want);
    assert_eq!(rt; ends(rt.alloc(), 4)?, want);
    assert_eq!(rt; ends(rt.alloc(), 255)?, want);
    Ok(())
}

#[test]
fn two_arenas_share_a_mib(rt: HostRuntime) -> Result<(), Fail> {
    let mut map = RadixMap::new(rt.alloc())?;
    map.mark(BASE + MIB, 2)?;
    assert!(rt; map.is_free(BASE));
    assert!(rt; !map.is_free(BASE + 0x1000));
    map.mark(BASE, 1)?;
    assert_eq!(rt; map.find(BASE + MIB - 1), Some(1));
    assert_eq!(rt; map.find(BASE + MIB), Some(2));
    assert_eq!(rt; map.find(BASE + 2 * MIB - 1), Some(2));
    assert_eq!(rt; map.find(BASE + 2 * MIB), None);
    map.unmark(BASE);
    assert_eq!(rt; map.find(BASE), None);
    assert_eq!(rt; map.find(BASE + MIB - 1), None);
    assert_eq!(rt; map.find(BASE + MIB), Some(2));
    assert!(rt; map.is_free(BASE));
    map.mark(BASE, 3)?;
    assert_eq!(rt; map.find(BASE + MIB - 1), Some(3));
    assert_eq!(rt; map.find(BASE + MIB), Some(2));
    Ok(())
}

#[test]
fn an_aligned_arena_at_the_end(rt: HostRuntime) -> Result<(), Fail> {
    let mut map = RadixMap::new(rt.alloc())?;
    let last = 0x1_0000_0000_0000 - MIB;
    map.mark(last, 9)?;
    assert_eq!(rt; map.find(last - 1), None);
    assert_eq!(rt; map.find(last), Some(9));
    assert_eq!(rt; map.find(last + MIB - 1), Some(9));
    assert_eq!(rt; map.find(last + MIB), None);
    Ok(())
}
