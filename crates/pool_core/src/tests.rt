ghost use Rattle.std.specs.Prelude.{◌≡◌, ◌+◌, ◌<◌, ◌≤◌, IfOk, length};
ghost use Rattle.pool_core.specs.Tests.{IsTestPool, IsWhole};

use crate::{Gave, Taken, arena, class, give, init, live, next, prev, set_next, set_prev, take};
use raw_region::Region;
use std::alloc::{AllocError, Global};
use std::test::Fail;

fn new_pool(alloc: Global) -> Result<Region, AllocError>
    ensures { IfOk result (λ r. IsTestPool r.cells 0) }
{
    let mut r = Region::new(alloc, 16384, 16384)?;
    init(&mut r, 0, 7, 31);
    Ok(r)
}

fn take_one(r: &mut Region, live: usize) -> Taken
    requires pool { IsTestPool r.old.cells live }
    requires room { live < 31 }
    ensures { IsTestPool r.new.cells (live + 1) }
{
    take(r, 0)
}

// Takes all 31 blocks, and says at how many of them the pool was full.
fn take_all(r: &mut Region, offs: &mut [u64]) -> u32
    requires pool { IsTestPool r.old.cells 0 }
    requires offs { length offs.old ≡ 31 }
    ensures pool { IsTestPool r.new.cells 31 }
    ensures few { result ≤ 31 }
{
    let mut full = 0;
    for i in 0..31usize {
        let taken = take_one(r, i);
        offs[i] = taken.off;
        if taken.now_full {
            full += 1;
        }
    }
    full
}

fn give_two(r: &mut Region) -> (Gave, Gave)
    requires { IsTestPool r.old.cells 31 }
    ensures { IsWhole r.new.cells }
{
    (give(r, 0, 48), give(r, 0, 560))
}

fn bytes_at(r: &Region, off: u64) -> [u8; 4]
    requires pool { IsWhole r.now.cells }
    requires inside { off ≤ 16380 }
{
    [
        r.read_byte(off),
        r.read_byte(off + 1),
        r.read_byte(off + 2),
        r.read_byte(off + 3),
    ]
}

fn word_at(r: &Region, off: u64) -> u64
    requires pool { IsWhole r.now.cells }
    requires inside { off ≤ 16376 }
{
    r.read_word(off)
}

fn end(r: Region)
    requires { IsWhole r.cells }
{
    r.end();
}

#[test]
fn blocks_in_bytes_are_taken_and_come_back(rt: HostRuntime) -> Result<(), Fail> {
    let mut r = new_pool(rt.alloc())?;
    let mut offs = [0u64; 31];
    let full = take_all(&mut r, &mut offs);
    let (class, live, arena) = (class(&r, 0), live(&r, 0), arena(&r, 0));
    let (first, second) = give_two(&mut r);
    let (used, head) = (word_at(&r, 0), word_at(&r, 8));
    let (link, last) = (word_at(&r, 560), word_at(&r, 48));
    let (next_offset, greatest) = (bytes_at(&r, 40), bytes_at(&r, 44));
    end(r);
    assert_eq!(rt;
        (offs[0], offs[1], offs[29], offs[30]),
        (48, 560, 14896, 15408)
    );
    assert_eq!(rt; (full, live, class, arena), (1, 31, 31, 7));
    assert_eq!(rt; (first.was_full, first.now_empty), (true, false));
    assert_eq!(rt; (second.was_full, second.now_empty), (false, false));
    assert_eq!(rt; (used, head, link, last), (29, 560, 48, 0));
    assert_eq!(rt;
        (next_offset, greatest),
        ([0x30, 0x3e, 0, 0], [0, 0x3e, 0, 0])
    );
    Ok(())
}
