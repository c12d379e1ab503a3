use crate::Region;
use crate::region::both_cross;
use std::test::Fail;

#[test]
#[tactic(auto, unfolding(crate::specs::Cells::zeroed))]
fn bytes_and_words_are_read_as_they_were_written(rt: HostRuntime) -> Result<(), Fail> {
    let mut region = Region::new(rt.alloc(), 0x1000, 64)?;
    let fresh = region.read_byte(63);
    region.write_word(8, 0x0102_0304_0506_0708);
    let low = region.read_byte(8);
    let word = region.read_word(8);
    region.fill(16, 4, 9);
    let filled = region.read_byte(19);
    region.write_byte(19, 7);
    let written = region.read_byte(19);
    let (base, len) = (region.base(), region.len());
    region.end();
    assert_eq!(rt; (base, len), (0x1000, 64));
    assert_eq!(rt; (fresh, low, filled, written), (0, 8, 9, 7));
    assert_eq!(rt; word, 0x0102_0304_0506_0708);
    Ok(())
}

#[test]
#[tactic(auto, unfolding(crate::specs::Cells::zeroed))]
fn a_piece_goes_and_comes_home_with_its_bytes(rt: HostRuntime) -> Result<(), Fail> {
    let mut region = Region::new(rt.alloc(), 0x1000, 64)?;
    let mut piece = region.carve(8, 2);
    both_cross(&region, &piece);
    let (place, len) = (piece.place(), piece.len());
    let bytes = piece.bytes_mut();
    bytes[1] = 5;
    let first = piece.bytes()[0];
    region.mend(piece);
    let back = region.read_byte(9);
    region.end();
    assert_eq!(rt; (place, len), (0x1008, 2));
    assert_eq!(rt; (first, back), (0, 5));
    Ok(())
}
