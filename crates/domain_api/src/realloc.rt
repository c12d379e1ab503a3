//! A block that gets another size.
//!
//! A block of a pool stays where it is if its n + 24 bytes fit there and are more than three quarters of
//! it (`pymalloc_realloc` of `Objects/obmalloc.c`): a smaller one would waste too much. Any other block
//! moves, in this order:
//!
//! ```text
//! 1  a new block is asked for    refused, or no memory ---> the old block stays as it was
//! 2  it gets the old block's data, as far as both go
//! 3  the old block is given up
//! ```
//!
//! The old block is given up last, so that it is there still where the new one is refused. Within one
//! class both can come from one pool, which may fill up by the first step and have a free block again
//! by the third. A block of a raw region asks for a raw region again, as `PyMem_RawRealloc` does; unlike
//! the C library's `realloc`, it always gets another one.

ghost use Rattle.std.specs.Prelude.{◌≡◌, ◌+◌, ◌^◌, ◌<◌, ◌≤◌, false, length, IfOk, IfErr, OnErr};
ghost use Rattle.block_model.specs.Block.{carried};
ghost use Rattle.layout_model.specs.Asks.{Request};
ghost use Rattle.debug_guard.specs.Guard.{guard_extent};
ghost use Rattle.domain_api.specs.Domains.{CameToMove, IsChanged, IsGivenUp, IsReallocated, MustMove, request_of};
ghost use Rattle.domain_api.specs.Held.{AreAnswered, AreAskedNothing, AreAskedOnce, AreHeld, AreSound};
ghost use Rattle.domain_api.specs.Held.{AreTraded, CanAsk, IsLoan, SamePlans};

use crate::answers::{Got, Made, MoveMade, Moved};
use crate::decide::{Decision, decide};
use crate::domains::{Domains, NOT_ASKED, Wanted, uses_pools};
use debug_guard::{Guarded, carry, check, piece, resize, size};
use mem_base::Letter;
use mem_base::limits::HOOK_BYTES;
use sources::{ArenaSource, RawSource};

impl Domains {
    /// Gives a block n bytes of data: its own as far as they go, and CD behind them. It stays where it
    /// is, or moves. It is null where the size is too great or the raw source refused, and a fault where
    /// the domain needs the interpreter lock and the call does not have it, or else where the check of
    /// the block finds damage; then the block comes back as it was. The error is that there was no
    /// memory, and never that the raw source refused: it hands the block back as it was, nothing has
    /// changed, and all that a source granted has gone back.
    pub fn realloc<A: ArenaSource, R: RawSource>(
        &mut self,
        old: Guarded,
        letter: Letter,
        n: u64,
        locked: bool,
        arenas: &mut A,
        raws: &mut R,
    ) -> Result<MoveMade, Guarded>
        requires loan { IsLoan (guard_extent old) self.old }
        requires ask { CanAsk self.old (A.seen arenas.old) (R.seen raws.old) }
        requires held { AreHeld self.old (A.seen arenas.old) (R.seen raws.old) }

        // What became of the block.
        ensures moved { IfOk result (λ made.
            IsReallocated letter n locked old self.old self.new made.got made.asked) }
        ensures failed { OnErr result (self.new ≡ self.old) }
        ensures kept { IfErr result (λ kept. kept ≡ old) }
        ensures came_to_move { OnErr result (CameToMove letter n locked old self.old) }

        // What the sources were asked.
        ensures answered { IfOk result (λ made. AreAnswered made.asked
            (A.seen arenas.old) (A.seen arenas.new) (R.seen raws.old) (R.seen raws.new)) }
        ensures plans { SamePlans
            (A.seen arenas.old) (A.seen arenas.new) (R.seen raws.old) (R.seen raws.new) }
        ensures once { OnErr result (AreAskedOnce
            (A.seen arenas.old) (A.seen arenas.new) (R.seen raws.old) (R.seen raws.new)) }

        // What the domains hold.
        ensures traded { AreTraded self.old self.new
            (A.seen arenas.old) (A.seen arenas.new) (R.seen raws.old) (R.seen raws.new) }
        ensures held { AreHeld self.new (A.seen arenas.new) (R.seen raws.new) }
        ensures sound { AreSound self.new.heap self.new.raws }
    {
        // A read of a field tells what always holds of both heaps, which each answer says again.
        let _inside = &self.heap;
        match decide(letter, n, locked, check(&old, letter)) {
            Decision::TooGreat => Ok(MoveMade {
                got: Moved::Null(old),
                asked: NOT_ASKED,
            }),
            Decision::Faults(found) => Ok(MoveMade {
                got: Moved::Fault(old, found),
                asked: NOT_ASKED,
            }),
            Decision::Asks => self.change(old, letter, n, arenas, raws),
        }
    }

    // The block with n bytes of data, where it lies or elsewhere.
    fn change<A: ArenaSource, R: RawSource>(
        &mut self,
        mut old: Guarded,
        letter: Letter,
        n: u64,
        arenas: &mut A,
        raws: &mut R,
    ) -> Result<MoveMade, Guarded>
        requires fits { n + 24 < 2 ^ 63 }
        requires loan { IsLoan (guard_extent old) self.old }
        requires ask { CanAsk self.old (A.seen arenas.old) (R.seen raws.old) }
        requires held { AreHeld self.old (A.seen arenas.old) (R.seen raws.old) }
        ensures changed { IfOk result (λ made.
            IsChanged letter n old self.old self.new made.got made.asked) }
        ensures failed { OnErr result (self.new ≡ self.old) }
        ensures kept { IfErr result (λ kept. kept ≡ old) }
        ensures must { OnErr result ((r : Request) × MustMove letter n old self.old r) }
        ensures answered { IfOk result (λ made. AreAnswered made.asked
            (A.seen arenas.old) (A.seen arenas.new) (R.seen raws.old) (R.seen raws.new)) }
        ensures plans { SamePlans
            (A.seen arenas.old) (A.seen arenas.new) (R.seen raws.old) (R.seen raws.new) }
        ensures once { OnErr result (AreAskedOnce
            (A.seen arenas.old) (A.seen arenas.new) (R.seen raws.old) (R.seen raws.new)) }
        ensures traded { AreTraded self.old self.new
            (A.seen arenas.old) (A.seen arenas.new) (R.seen raws.old) (R.seen raws.new) }
        ensures held { AreHeld self.new (A.seen arenas.new) (R.seen raws.new) }
        ensures sound { AreSound self.new.heap self.new.raws }
    {
        // A block has bytes, so its first one tells whose it is.
        let _size = size(&old);
        let zero = false;
        if !self.heap.owns(piece(&old).place()) {
            let pooled = false;
            let wanted = Wanted {
                letter,
                n,
                zero,
                pooled,
            };
            return self.move_to(old, wanted, arenas, raws);
        }
        if self.heap.fits_in_place(piece(&old), n + HOOK_BYTES) {
            resize(&mut old, letter, n);
            return Ok(MoveMade {
                got: Moved::Block(old),
                asked: NOT_ASKED,
            });
        }
        let pooled = uses_pools(letter);
        let wanted = Wanted {
            letter,
            n,
            zero,
            pooled,
        };
        self.move_to(old, wanted, arenas, raws)
    }

    // A new block with the data of the old one, which is given up then.
    fn move_to<A: ArenaSource, R: RawSource>(
        &mut self,
        old: Guarded,
        wanted: Wanted,
        arenas: &mut A,
        raws: &mut R,
    ) -> Result<MoveMade, Guarded>
        requires fits { wanted.n + 24 < 2 ^ 63 }
        requires new { wanted.zero ≡ false }
        requires loan { IsLoan (guard_extent old) self.old }
        requires must { MustMove wanted.letter wanted.n old self.old (request_of wanted.pooled wanted.n) }
        requires ask { CanAsk self.old (A.seen arenas.old) (R.seen raws.old) }
        requires held { AreHeld self.old (A.seen arenas.old) (R.seen raws.old) }
        ensures changed { IfOk result (λ made.
            IsChanged wanted.letter wanted.n old self.old self.new made.got made.asked) }
        ensures failed { OnErr result (self.new ≡ self.old) }
        ensures kept { IfErr result (λ kept. kept ≡ old) }
        ensures answered { IfOk result (λ made. AreAnswered made.asked
            (A.seen arenas.old) (A.seen arenas.new) (R.seen raws.old) (R.seen raws.new)) }
        ensures plans { SamePlans
            (A.seen arenas.old) (A.seen arenas.new) (R.seen raws.old) (R.seen raws.new) }
        ensures once { OnErr result (AreAskedOnce
            (A.seen arenas.old) (A.seen arenas.new) (R.seen raws.old) (R.seen raws.new)) }
        ensures traded { AreTraded self.old self.new
            (A.seen arenas.old) (A.seen arenas.new) (R.seen raws.old) (R.seen raws.new) }
        ensures held { AreHeld self.new (A.seen arenas.new) (R.seen raws.new) }
        ensures sound { AreSound self.new.heap self.new.raws }
    {
        match self.take(wanted, arenas, raws) {
            Ok(Made { got, asked }) => match got {
                Got::Block(block) => {
                    let block = self.replace(old, block, arenas, raws);
                    Ok(MoveMade {
                        got: Moved::Block(block),
                        asked,
                    })
                }
                Got::Null => Ok(MoveMade {
                    got: Moved::Null(old),
                    asked,
                }),
                Got::Fault(_) => unreachable!(),
            },
            Err(_) => Err(old),
        }
    }

    // Carries the data of the old block over that of the new one, and gives the old one up.
    fn replace<A: ArenaSource, R: RawSource>(
        &mut self,
        old: Guarded,
        mut block: Guarded,
        arenas: &mut A,
        raws: &mut R,
    ) -> Guarded
        requires loan { IsLoan (guard_extent old) self.old }
        requires held { AreHeld self.old (A.seen arenas.old) (R.seen raws.old) }
        ensures carried { result ≡ record block { body = carried old.body block.body } }
        ensures long { 16 ≤ length old.body }
        ensures back { IsGivenUp old self.old self.new }
        ensures nothing { AreAskedNothing
            (A.seen arenas.old) (A.seen arenas.new) (R.seen raws.old) (R.seen raws.new) }
        ensures traded { AreTraded self.old self.new
            (A.seen arenas.old) (A.seen arenas.new) (R.seen raws.old) (R.seen raws.new) }
        ensures held { AreHeld self.new (A.seen arenas.new) (R.seen raws.new) }
        ensures sound { AreSound self.new.heap self.new.raws }
    {
        // A block has bytes, so its first one tells whose it is.
        let _size = size(&old);
        carry(&old, &mut block);
        self.drop_block(old, arenas, raws);
        block
    }
}
