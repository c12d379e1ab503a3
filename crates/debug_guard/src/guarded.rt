ghost use Rattle.std.specs.Prelude.{◌≡◌, ◌+◌, ◌-◌, ◌<◌, ◌≤◌, ◌++◌, ◌^◌, length, drop, replicate};
ghost use Rattle.debug_guard.specs.Guard.{fill_of, filled, guard_extent, piece_of, size_word, splice};
ghost use Rattle.block_model.specs.Block.{carried, dead_byte, fresh, image_of, new_byte, resized, size_of};
ghost use Rattle.extents.specs.Extent.{piece_extent};

use mem_base::Letter;
use raw_region::Piece;
use std::marker::Model;

/// What a byte of a pad holds: `PYMEM_FORBIDDENBYTE`.
pub(crate) const PAD: u8 = 0xFD;

/// What a byte of new data holds: `PYMEM_CLEANBYTE`.
const NEW: u8 = 0xCD;

/// What a byte of a freed block holds: `PYMEM_DEADBYTE`.
const DEAD: u8 = 0xDD;

/// A block inside a piece. It cannot be dropped: `kill` gives its piece back.
pub struct Guarded {
    piece: Piece,
    size: u64,
}

impl Model for Guarded {
    ghost use Rattle.debug_guard.specs.Guard.{Guard, IsDressed, guard_at};

    ghost Value = { Guard };

    ghost view = { λ g. guard_at g.piece g.size };

    ghost invariant = { λ g. IsDressed g.piece g.size };
}

/// Writes a new block for a call with this letter: its size word, its letter and pads, and n bytes
/// of data, which hold 00 where `zero` says so and else CD.
pub fn dress(mut piece: Piece, letter: Letter, n: u64, zero: bool) -> Guarded
    requires { n + 24 ≤ length piece.bytes }
    ensures body { result.body ≡ fresh letter n (fill_of zero) }
    ensures same { (result.place ≡ piece.place) × (result.maker ≡ piece.maker) }
    ensures rest { result.rest ≡ drop (n + 24) piece.bytes }
    ensures extent { guard_extent result ≡ piece_extent piece }
{
    write_block(piece.bytes_mut(), letter, n, 0, fill_byte(zero));
    Guarded { piece, size: n }
}

/// Gives the block another letter and another size where it lies: its data stays as far as n bytes
/// go, what is added holds CD, and the size word, the letter and the pads are written anew.
pub fn resize(g: &mut Guarded, letter: Letter, n: u64)
    requires { n + 24 ≤ length (piece_of g.old).bytes }
    ensures body { g.new.body ≡ resized letter n new_byte g.old.body }
    ensures same { (g.new.place ≡ g.old.place) × (g.new.maker ≡ g.old.maker) }
    ensures rest { g.new.rest ≡ drop (n + 24) (piece_of g.old).bytes }
    ensures extent { guard_extent g.new ≡ guard_extent g.old }
{
    let kept = g.size.min(n);
    write_block(g.piece.bytes_mut(), letter, n, kept as usize, NEW);
    g.size = n;
}

// What a byte of new data holds.
fn fill_byte(zero: bool) -> u8
    ensures { result ≡ fill_of zero }
{
    if zero { 0 } else { NEW }
}

// A block of n bytes of data at the start of these bytes, of which so many stay; what is behind it stays
// too.
fn write_block(bytes: &mut [u8], letter: Letter, n: u64, kept: usize, new: u8)
    requires room { n + 24 ≤ length bytes.old }
    requires fits { kept ≤ n }
    ensures { bytes.new ≡
        size_word n ++ filled letter n kept new (drop 16 bytes.old) ++ drop (n + 24) bytes.old }
{
    let (block, _) = bytes.split_at_mut(n as usize + 24);
    let (word, body) = block.split_at_mut(8);
    write_size(word, n);
    write_body(body, letter, kept, new);
}

#[tactic(auto, unfolding(crate::specs::Guard::size_word))]
fn write_size(word: &mut [u8], n: u64)
    requires { length word.old ≡ 8 }
    ensures { word.new ≡ size_word n }
{
    word.copy_from_slice(&n.to_be_bytes());
}

#[tactic(auto, unfolding(block_model::specs::Block::body_of))]
fn write_body(body: &mut [u8], letter: Letter, kept: usize, new: u8)
    requires { kept + 16 ≤ length body.old }
    ensures { body.new ≡ filled letter (length body.old - 16) kept new (drop 8 body.old) }
{
    let (head, rest) = body.split_at_mut(8);
    let (data, tail) = rest.split_at_mut(rest.len() - 8);
    head.fill(PAD);
    head[0] = letter.byte();
    data[kept..].fill(new);
    tail.fill(PAD);
}

/// Copies the data of a block over that of another one, as far as both go.
pub fn carry(from: &Guarded, to: &mut Guarded)
    ensures body { to.new ≡ record to.old { body = carried from.now.body to.old.body } }
    ensures size { length to.new.body ≡ length to.old.body }
    ensures extent { guard_extent to.new ≡ guard_extent to.old }
{
    let count = from.size.min(to.size) as usize;
    to.write(8, &from.body()[8..count + 8]);
}

/// Fills the piece with DD and gives it back.
pub fn kill(g: Guarded) -> Piece
    ensures same { (result.place ≡ g.place) × (result.maker ≡ g.maker) }
    ensures dead { result.bytes ≡ replicate (length (piece_of g).bytes) dead_byte }
    ensures extent { piece_extent result ≡ guard_extent g }
{
    let Guarded { mut piece, size: _ } = g;
    piece.bytes_mut().fill(DEAD);
    piece
}

/// How many bytes of data the block has.
pub fn size(g: &Guarded) -> u64
    ensures data { result ≡ size_of g.now.body }
    ensures body { result + 16 ≡ length g.now.body }
    ensures room { result + 24 ≤ length (piece_of g.now).bytes }
    ensures small { result < 2 ^ 63 }
{
    g.size
}

/// The piece that the block lies in, for reading.
pub fn piece(g: &Guarded) -> &Piece
    ensures piece { result.now ≡ piece_of g.now }
    ensures long { (16 ≤ length g.now.body) × (length (image_of g.now.body) ≡ length g.now.body + 8) }
{
    &g.piece
}

impl Guarded {
    /// The block's body.
    pub(crate) fn body(&self) -> &[u8]
        ensures bytes { result.now ≡ self.now.body }
        ensures long { 16 ≤ length result.now }
    {
        let bytes = self.piece.bytes();
        &bytes[8..self.size as usize + 24]
    }

    /// Writes over the body from this index on.
    pub(crate) fn write(&mut self, at: usize, bytes: &[u8])
        requires { at + length bytes.now ≤ length self.old.body }
        ensures { self.new ≡ record self.old { body = splice self.old.body at bytes.now } }
    {
        let size = self.size as usize;
        let (_, rest) = self.piece.bytes_mut().split_at_mut(8);
        write_at(&mut rest[..size + 16], at, bytes);
    }
}

// Writes these bytes over a part of the body.
fn write_at(body: &mut [u8], at: usize, bytes: &[u8])
    requires { at + length bytes.now ≤ length body.old }
    ensures { body.new ≡ splice body.old at bytes.now }
{
    body[at..at + bytes.len()].copy_from_slice(bytes);
}
