ghost use Rattle.std.specs.Prelude.{◌≡◌, ◌≤◌, length, IfOk};
ghost use Rattle.raw_region.specs.Cells.{AreLent};
ghost use Rattle.extents.specs.Extent.{piece_extent, region_extent};

use super::*;
use mem_base::{BlockReport, Fault, Letter};
use raw_region::{Piece, Region};
use std::alloc::{AllocError, Global};
use std::test::Fail;

// A region of so many bytes at the address 4096, and all of it as a piece.
fn lend(alloc: Global, len: u64) -> Result<(Region, Piece), AllocError>
    requires { (1 ≤ len) × (len ≤ 4096) }
    ensures { IfOk result (λ r. (piece_extent r.1 ≡ region_extent r.0)
        × AreLent r.0.cells 0 (length r.0.cells) × (length r.1.bytes ≡ len)) }
{
    let mut region = Region::new(alloc, 4096, len)?;
    let piece = region.carve(0, len);
    Ok((region, piece))
}

// Gives the memory up, once the piece that is all of it has come home.
fn end(mut region: Region, piece: Piece)
    requires { (piece_extent piece ≡ region_extent region) × AreLent region.cells 0 (length region.cells) }
{
    region.mend(piece);
    region.end();
}

#[test]
fn shows_the_image_of_two_bytes(rt: HostRuntime) -> Result<(), Fail> {
    let (region, room) = lend(rt.alloc(), 26)?;
    let mut g = dress(room, Letter::Mem, 2, false);
    let poked = poke(&mut g, 0, b"\x61\x62");
    assert!(rt; poked);
    assert_eq!(rt; size(&g), 2);
    assert_eq!(rt; check(&g, Letter::Mem), None);
    let image = [
        0, 0, 0, 0, 0, 0, 0, 2, 0x6d, 0xfd, 0xfd, 0xfd, 0xfd, 0xfd, 0xfd, 0xfd, 0x61, 0x62, 0xfd,
        0xfd, 0xfd, 0xfd, 0xfd, 0xfd, 0xfd, 0xfd,
    ];
    assert_eq!(rt; piece(&g).place(), 4096);
    assert_eq!(rt; piece(&g).len(), 26);
    assert!(rt; piece(&g).bytes() == image.as_slice());
    end(region, kill(g));
    Ok(())
}

#[test]
fn finds_the_first_damage(rt: HostRuntime) -> Result<(), Fail> {
    let (region, room) = lend(rt.alloc(), 26)?;
    let mut g = dress(room, Letter::Mem, 2, true);
    let behind = poke(&mut g, 2, b"\x00");
    assert!(rt; behind);
    assert_eq!(rt; check(&g, Letter::Mem), Some(Fault::BadTail(0)));
    let before = poke(&mut g, -7, b"\x00");
    assert!(rt; before);
    assert_eq!(rt; check(&g, Letter::Mem), Some(Fault::BadLead(1)));
    let other = Fault::BadId {
        found: 0x6d,
        verified: 0x6f,
    };
    assert_eq!(rt; check(&g, Letter::Obj), Some(other));
    let shown = BlockReport {
        size: 2,
        head: [0x6d, 0, 0xfd, 0xfd, 0xfd, 0xfd, 0xfd, 0xfd],
        tail: [0, 0xfd, 0xfd, 0xfd, 0xfd, 0xfd, 0xfd, 0xfd],
    };
    assert_eq!(rt; report(&g), shown);
    end(region, kill(g));
    Ok(())
}

#[test]
fn reaches_the_body_alone(rt: HostRuntime) -> Result<(), Fail> {
    let (region, room) = lend(rt.alloc(), 40)?;
    let mut g = dress(room, Letter::Raw, 6, false);
    let body = [
        0x72, 0xfd, 0xfd, 0xfd, 0xfd, 0xfd, 0xfd, 0xfd, 0xcd, 0xcd, 0xcd, 0xcd, 0xcd, 0xcd, 0xfd,
        0xfd, 0xfd, 0xfd, 0xfd, 0xfd, 0xfd, 0xfd,
    ];
    let outside = poke(&mut g, 13, b"\x00\x00");
    assert!(rt; !outside);
    assert!(rt; peek(&g, -8, 22) == Some(body.as_slice()));
    assert!(rt; peek(&g, -8, 23).is_none());
    assert!(rt; peek(&g, 14, 0) == Some(b"".as_slice()));
    assert!(rt; peek(&g, 15, 0).is_none());
    assert!(rt; peek(&g, i64::MAX, u64::MAX).is_none());
    end(region, kill(g));
    Ok(())
}

#[test]
fn kills_the_whole_piece(rt: HostRuntime) -> Result<(), Fail> {
    let (region, room) = lend(rt.alloc(), 32)?;
    let g = dress(room, Letter::Obj, 8, true);
    assert!(rt; peek(&g, 0, 8) == Some([0; 8].as_slice()));
    let dead = kill(g);
    assert!(rt; dead.bytes() == [0xdd; 32].as_slice());
    end(region, dead);
    Ok(())
}

#[test]
fn grows_and_shrinks_where_it_lies(rt: HostRuntime) -> Result<(), Fail> {
    let (region, room) = lend(rt.alloc(), 30)?;
    let mut g = dress(room, Letter::Mem, 4, false);
    let poked = poke(&mut g, 0, b"abcd");
    assert!(rt; poked);
    resize(&mut g, Letter::Obj, 6);
    let grown = [
        0, 0, 0, 0, 0, 0, 0, 6, 0x6f, 0xfd, 0xfd, 0xfd, 0xfd, 0xfd, 0xfd, 0xfd, 0x61, 0x62, 0x63,
        0x64, 0xcd, 0xcd, 0xfd, 0xfd, 0xfd, 0xfd, 0xfd, 0xfd, 0xfd, 0xfd,
    ];
    assert!(rt; piece(&g).bytes() == grown.as_slice());
    assert_eq!(rt; check(&g, Letter::Obj), None);
    resize(&mut g, Letter::Mem, 3);
    assert_eq!(rt; size(&g), 3);
    let shrunk = [
        0x6d, 0xfd, 0xfd, 0xfd, 0xfd, 0xfd, 0xfd, 0xfd, 0x61, 0x62, 0x63, 0xfd, 0xfd, 0xfd, 0xfd,
        0xfd, 0xfd, 0xfd, 0xfd,
    ];
    assert!(rt; peek(&g, -8, 19) == Some(shrunk.as_slice()));
    end(region, kill(g));
    Ok(())
}

#[test]
fn carries_as_far_as_both_blocks_go(rt: HostRuntime) -> Result<(), Fail> {
    let (first, short) = lend(rt.alloc(), 26)?;
    let (second, long) = match lend(rt.alloc(), 28) {
        Ok(lent) => lent,
        Err(error) => {
            end(first, short);
            return Err(error.into());
        }
    };
    let mut a = dress(short, Letter::Mem, 2, true);
    let mut b = dress(long, Letter::Mem, 4, false);
    carry(&a, &mut b);
    let shown = peek(&b, 0, 12)
        == Some([
            0, 0, 0xcd, 0xcd, 0xfd, 0xfd, 0xfd, 0xfd, 0xfd, 0xfd, 0xfd, 0xfd,
        ]
        .as_slice());
    let poked = poke(&mut b, 0, b"abcd");
    carry(&b, &mut a);
    let back = peek(&a, 0, 10) == Some(b"ab\xfd\xfd\xfd\xfd\xfd\xfd\xfd\xfd".as_slice());
    end(second, kill(b));
    end(first, kill(a));
    assert!(rt; shown && poked && back);
    Ok(())
}
