ghost use Rattle.std.specs.Prelude.{◌≡◌, ◌+◌, ◌^◌, ◌<◌, ◌≤◌, length};
ghost use Rattle.extents.specs.Sums.{AllIn};

use crate::{RawGot, RawHeap};
use sources::{MemRaw, RawSource};
use std::alloc::AllocError;
use std::test::Fail;

// This takes only what can go to another thread.
fn crosses<T: Send>(_value: &T) {}

// The place and the length of one more block, which is freed at once.
fn one_block<R: RawSource>(
    heap: &mut RawHeap,
    raws: &mut R,
    n: u64,
) -> Result<Option<(u64, u64)>, AllocError>
    requires count { (R.seen raws.old).asked < 2 ^ 63 }
    requires held { AllIn heap.old (R.seen raws.old).out }
    ensures asked { (R.seen raws.new).asked ≡ (R.seen raws.old).asked + 1 }
    ensures held { AllIn heap.new (R.seen raws.new).out }
    ensures same { length heap.new ≡ length heap.old }
{
    let RawGot { piece } = heap.alloc(n, raws)?;
    match piece {
        Some(piece) => {
            let block = (piece.place(), piece.len());
            heap.free(piece, raws);
            Ok(Some(block))
        }
        None => Ok(None),
    }
}

// The places and the lengths of two more blocks that are lent at once. The first one is freed first.
fn two_blocks<R: RawSource>(
    heap: &mut RawHeap,
    raws: &mut R,
    n: u64,
    m: u64,
) -> Result<Option<[(u64, u64); 2]>, AllocError>
    requires count { (R.seen raws.old).asked + 1 < 2 ^ 63 }
    requires held { AllIn heap.old (R.seen raws.old).out }
    ensures asked { (R.seen raws.new).asked ≤ (R.seen raws.old).asked + 2 }
    ensures held { AllIn heap.new (R.seen raws.new).out }
    ensures same { length heap.new ≡ length heap.old }
{
    let RawGot { piece } = heap.alloc(n, raws)?;
    let Some(first) = piece else {
        return Ok(None);
    };
    let second = heap.alloc(m, raws);
    let first_block = (first.place(), first.len());
    heap.free(first, raws);
    let RawGot { piece } = second?;
    match piece {
        Some(second) => {
            let second_block = (second.place(), second.len());
            heap.free(second, raws);
            Ok(Some([first_block, second_block]))
        }
        None => Ok(None),
    }
}

#[test]
fn a_block_of_no_bytes_has_one_and_a_refused_request_gets_none(
    rt: HostRuntime,
) -> Result<(), Fail> {
    let mut raws = MemRaw::new(rt.alloc())?;
    raws.refuse(2)?;
    let mut heap = RawHeap::new(rt.alloc())?;
    crosses(&heap);
    let first = one_block(&mut heap, &mut raws, 0);
    let second = one_block(&mut heap, &mut raws, 8);
    let third = one_block(&mut heap, &mut raws, 8);
    let live = heap.live();
    heap.end();
    assert_eq!(rt; first?, Some((0x2000_0000_0000, 1)));
    assert_eq!(rt; (second?, third?), (None, Some((0x2000_0000_0010, 8))));
    assert_eq!(rt; (live, raws.asked(), raws.refused()), (0, 3, 1));
    Ok(())
}

#[test]
fn blocks_lie_apart_and_nothing_is_out_once_they_are_freed(rt: HostRuntime) -> Result<(), Fail> {
    let mut raws = MemRaw::new(rt.alloc())?;
    let mut heap = RawHeap::new(rt.alloc())?;
    let both = two_blocks(&mut heap, &mut raws, 5, 17);
    // The source takes a shape only where nothing is out, and has no room for a byte after this.
    raws.shape(0);
    let none = one_block(&mut heap, &mut raws, 1);
    let live = heap.live();
    heap.end();
    assert_eq!(rt;
        both?,
        Some([(0x2000_0000_0000, 5), (0x2000_0000_0010, 17)])
    );
    assert_eq!(rt; (none?, live), (None, 0));
    assert_eq!(rt; (raws.asked(), raws.refused()), (3, 1));
    Ok(())
}
