//! A block as the debug hooks of obmalloc.c lay it out (`_PyMem_DebugRawAlloc`). With n bytes of data
//! at p:
//!
//! | Bytes | Hold |
//! |---|---|
//! | p-16 to p-9 | n, the greatest byte first |
//! | p-8 | the letter of the block's domain: `r`, `m` or `o` |
//! | p-7 to p-1 | FD |
//! | p to p+n-1 | the data |
//! | p+n to p+n+7 | FD |
//!
//! New data is filled with CD, and a block that is freed with DD, so that reads of bytes that nobody
//! wrote show. A check (`_PyMem_DebugCheckAddress`) reads the letter, then the seven bytes FD before
//! the data, then the eight behind it, and reports the first that is wrong. Unlike there, no serial
//! number follows the block, and the size word cannot be reached; all that follows it is the block's
//! body, and pokes and peeks reach no other byte.
//!
//! A realloc (`_PyMem_DebugRawRealloc`) keeps the data as far as the new size goes, fills what it adds
//! with CD and writes letter and pads anew, whether the block stays where it is or moves.
//!
//! The definitions in `specs/` say this in the words that the crates above cite.
#![tactic(auto)]

ghost use Rattle.std.specs.Prelude.{◌≡◌, ◌≤◌, ℕ, ℤ, true, List, None, length};
ghost use Rattle.block_model.specs.Block.{Body, body_of, carried, finding_in, fresh};
ghost use Rattle.block_model.specs.Block.{peeked, poked, reaches, resized, size_of};
ghost use Rattle.mem_base.specs.declared.trace.Letter.{Letter};

/// A body has as many bytes of data as it was made of.
pub fn sizes_add_up()
    ensures { (v : Letter) (bytes : List ℕ) → size_of (body_of v bytes) ≡ length bytes }
{}

/// A block that nobody damaged shows no damage.
pub fn whole_blocks_pass()
    ensures { (v : Letter) (bytes : List ℕ) → finding_in v (body_of v bytes) ≡ None }
{}

/// What a poke wrote, a peek of the same bytes shows.
pub fn peeks_show_pokes()
    ensures { (body : List ℕ) (offset : ℤ) (bytes : List ℕ)
        → reaches body offset (length bytes) ≡ true
        → peeked (poked body offset bytes) offset (length bytes) ≡ bytes }
{}

/// A block that grows or shrinks has the size that it was given.
pub fn resizing_gives_the_size()
    ensures { (v : Letter) (n b : ℕ) (body : Body)
        → 16 ≤ length body → size_of (resized v n b body) ≡ n }
{}

/// A new block of another size, with the data of the old one over its own, is the old one resized.
pub fn moving_is_resizing()
    ensures { (v : Letter) (n b : ℕ) (body : Body) → 16 ≤ length body
        → carried body (fresh v n b) ≡ resized v n b body }
{}
