//! The blocks of all three domains, over the two heaps that they lie in.
//!
//! A block of the raw domain is a region of its own. One of the mem and object domains lies in a pool
//! where it has at most 512 bytes with the hooks', and else, or where its arena is refused, is a
//! region too, as in `_PyObject_Malloc` of `Objects/obmalloc.c`, which falls back on
//! `PyMem_RawMalloc`:
//!
//! ```text
//! letter   n + 24 bytes        block
//! r        any                 region
//! m, o     at most 512         place in a pool ---- arena refused ---> region
//! m, o     more                region
//! ```
//!
//! Which of the two a block is its address tells when it is given up: a block of a pool lies in an
//! arena, and no region of the raw source does (`address_in_range`). Always, no two of the heap's
//! blocks, nor of the raw regions, share an address. It differs in that a refusal and want of memory
//! are two answers: a source that refuses makes the call null, and only a call that was not refused
//! is an error.

ghost use Rattle.std.specs.Prelude.{◌≡◌, ℕ, ◌+◌, ◌*◌, ◌^◌, ◌<◌, ◌≤◌, true, [], None, IfOk, OnErr};
ghost use Rattle.block_model.specs.Block.{new_byte};
ghost use Rattle.debug_guard.specs.Guard.{fill_of, guard_extent};
ghost use Rattle.request_model.specs.Counts.{raw_asks, raw_refusals};
ghost use Rattle.request_model.specs.Decision.{asks, call_fault, decision, request};
ghost use Rattle.sources.specs.Holder.{Answered, AskedUnrefused, Traded};
ghost use Rattle.py_heap.specs.Heap.{empty_heap, regions_of};
ghost use Rattle.domain_api.specs.Domains.{IsFreed, IsGivenUp, IsMade, IsTakenBy};
ghost use Rattle.domain_api.specs.Domains.{IsTakenRaw, request_of, view_of_both};
ghost use Rattle.domain_api.specs.Held.{AreAnswered, AreAskedNothing, AreAskedOnce, AreHeld, AreSound};
ghost use Rattle.domain_api.specs.Held.{AreTraded, CanAsk, HasCounts, IsLoan, SamePlans};

use crate::answers::{Asked, Freed, Got, Made};
use crate::decide::{Decision, decide, fault_of_call};
use debug_guard::{Guarded, check, dress, kill, size};
use mem_base::limits::HOOK_BYTES;
use mem_base::{Ask, Counts, Fault, Grant, Letter, View};
use py_heap::{Heap, HeapGot};
use raw_heap::{RawGot, RawHeap};
use sources::{ArenaSource, RawSource};
use std::alloc::{AllocError, Global};
use std::marker::Model;

/// The blocks of all three domains. It must be spent by `end`, once no block is left.
pub struct Domains {
    pub(crate) heap: Heap,
    raw: RawHeap,
}

impl Model for Domains {
    ghost use Rattle.domain_api.specs.Held.{AreSound, DomainsView};

    ghost Value = { DomainsView };

    ghost view = { λ d. record { heap = d.heap; raws = d.raw } };

    ghost invariant = { λ d. AreSound d.heap d.raw };
}

/// No source was asked.
pub(crate) const NOT_ASKED: Asked = Asked {
    arena: Grant::NotAsked,
    raw: Ask::NotAsked,
};

/// A new block that may be asked for: its domain, how many bytes of data it has, whether they are to be
/// 00, and whether the pools are asked first.
#[derive(Clone, Copy)]
pub(crate) struct Wanted {
    pub(crate) letter: Letter,
    pub(crate) n: u64,
    pub(crate) zero: bool,
    pub(crate) pooled: bool,
}

/// Whether the blocks of a domain may lie in pools.
pub(crate) fn uses_pools(letter: Letter) -> bool
    ensures { (n : ℕ) → request_of result n ≡ request letter n }
{
    match letter {
        Letter::Raw => false,
        Letter::Mem | Letter::Obj => true,
    }
}

impl Domains {
    /// Domains without blocks. The error is that there was no memory.
    pub fn new(alloc: Global) -> Result<Domains, AllocError>
        ensures empty { IfOk result (λ d. d ≡ record { heap = empty_heap; raws = [] }) }
        ensures sound { IfOk result (λ d. AreSound d.heap d.raws) }
    {
        let raw = RawHeap::new(alloc)?;
        match Heap::new(alloc) {
            Ok(heap) => Ok(Domains { heap, raw }),
            Err(error) => {
                raw.end();
                Err(error)
            }
        }
    }

    // The block in a region of its own, after the arena source gave this answer.
    fn take_raw<A: ArenaSource, R: RawSource>(
        &mut self,
        wanted: Wanted,
        arena: Grant,
        arenas: &mut A,
        raws: &mut R,
    ) -> Result<Made, AllocError>
        requires fits { wanted.n + 24 < 2 ^ 63 }
        requires count { (R.seen raws.old).asked < 2 ^ 63 }
        requires held { AreHeld self.old (A.seen arenas.old) (R.seen raws.old) }

        // What block there is.
        ensures made { IfOk result (λ made.
            IsTakenRaw wanted.letter wanted.n (fill_of wanted.zero) self.old self.new made.got made.asked) }
        ensures failed { OnErr result (self.new ≡ self.old) }

        // What the raw source was asked.
        ensures arena { IfOk result (λ made. made.asked.arena ≡ arena) }
        ensures raw { IfOk result (λ made. Answered (raw_asks made.asked.raw) (raw_refusals made.asked.raw)
            (R.seen raws.old) (R.seen raws.new)) }
        ensures plan { (R.seen raws.new).plan ≡ (R.seen raws.old).plan }
        ensures unrefused { OnErr result (AskedUnrefused (R.seen raws.old) (R.seen raws.new)) }
        ensures once { OnErr result ((R.seen raws.new).asked ≡ (R.seen raws.old).asked + 1) }

        // What the domains hold.
        ensures traded { Traded self.old.raws self.new.raws (R.seen raws.old) (R.seen raws.new) }
        ensures heap { self.new.heap ≡ self.old.heap }
        ensures held { AreHeld self.new (A.seen arenas.new) (R.seen raws.new) }
        ensures arenas { A.seen arenas.new ≡ A.seen arenas.old }
        ensures sound { AreSound self.new.heap self.new.raws }
    {
        let RawGot { piece } = self.raw.alloc(wanted.n + HOOK_BYTES, raws)?;
        Ok(match piece {
            Some(piece) => Made {
                got: Got::Block(dress(piece, wanted.letter, wanted.n, wanted.zero)),
                asked: Asked {
                    arena,
                    raw: Ask::Granted,
                },
            },
            None => Made {
                got: Got::Null,
                asked: Asked {
                    arena,
                    raw: Ask::Refused,
                },
            },
        })
    }

    // The block in a pool, or in a region of its own where it is too large for one or its arena was
    // refused.
    fn take_pooled<A: ArenaSource, R: RawSource>(
        &mut self,
        wanted: Wanted,
        arenas: &mut A,
        raws: &mut R,
    ) -> Result<Made, AllocError>
        requires fits { wanted.n + 24 < 2 ^ 63 }
        requires ask { CanAsk self.old (A.seen arenas.old) (R.seen raws.old) }
        requires held { AreHeld self.old (A.seen arenas.old) (R.seen raws.old) }
        ensures taken { IfOk result (λ made. IsTakenBy (request_of true wanted.n)
            wanted.letter wanted.n (fill_of wanted.zero) self.old self.new made.got made.asked) }
        ensures failed { OnErr result (self.new ≡ self.old) }
        ensures answered { IfOk result (λ made. AreAnswered made.asked
            (A.seen arenas.old) (A.seen arenas.new) (R.seen raws.old) (R.seen raws.new)) }
        ensures plans { SamePlans
            (A.seen arenas.old) (A.seen arenas.new) (R.seen raws.old) (R.seen raws.new) }
        ensures once { OnErr result (AreAskedOnce
            (A.seen arenas.old) (A.seen arenas.new) (R.seen raws.old) (R.seen raws.new)) }
        ensures traded { AreTraded self.old self.new
            (A.seen arenas.old) (A.seen arenas.new) (R.seen raws.old) (R.seen raws.new) }
        ensures held { AreHeld self.new (A.seen arenas.new) (R.seen raws.new) }
        ensures sound { AreSound self.new.heap self.new.raws }
    {
        let HeapGot { piece, grant } = self.heap.alloc(wanted.n + HOOK_BYTES, arenas)?;
        match piece {
            Some(piece) => Ok(Made {
                got: Got::Block(dress(piece, wanted.letter, wanted.n, wanted.zero)),
                asked: Asked {
                    arena: grant,
                    raw: Ask::NotAsked,
                },
            }),
            None => self.take_raw(wanted, grant, arenas, raws),
        }
    }

    /// A new block, which may be asked for.
    pub(crate) fn take<A: ArenaSource, R: RawSource>(
        &mut self,
        wanted: Wanted,
        arenas: &mut A,
        raws: &mut R,
    ) -> Result<Made, AllocError>
        requires fits { wanted.n + 24 < 2 ^ 63 }
        requires ask { CanAsk self.old (A.seen arenas.old) (R.seen raws.old) }
        requires held { AreHeld self.old (A.seen arenas.old) (R.seen raws.old) }
        ensures taken { IfOk result (λ made. IsTakenBy (request_of wanted.pooled wanted.n)
            wanted.letter wanted.n (fill_of wanted.zero) self.old self.new made.got made.asked) }
        ensures failed { OnErr result (self.new ≡ self.old) }
        ensures answered { IfOk result (λ made. AreAnswered made.asked
            (A.seen arenas.old) (A.seen arenas.new) (R.seen raws.old) (R.seen raws.new)) }
        ensures plans { SamePlans
            (A.seen arenas.old) (A.seen arenas.new) (R.seen raws.old) (R.seen raws.new) }
        ensures once { OnErr result (AreAskedOnce
            (A.seen arenas.old) (A.seen arenas.new) (R.seen raws.old) (R.seen raws.new)) }
        ensures traded { AreTraded self.old self.new
            (A.seen arenas.old) (A.seen arenas.new) (R.seen raws.old) (R.seen raws.new) }
        ensures held { AreHeld self.new (A.seen arenas.new) (R.seen raws.new) }
        ensures sound { AreSound self.new.heap self.new.raws }
    {
        if wanted.pooled {
            self.take_pooled(wanted, arenas, raws)
        } else {
            self.take_raw(wanted, Grant::NotAsked, arenas, raws)
        }
    }

    // The new block, where what the call comes to lets it ask for one.
    fn make<A: ArenaSource, R: RawSource>(
        &mut self,
        wanted: Wanted,
        locked: bool,
        arenas: &mut A,
        raws: &mut R,
    ) -> Result<Made, AllocError>
        requires ask { CanAsk self.old (A.seen arenas.old) (R.seen raws.old) }
        requires held { AreHeld self.old (A.seen arenas.old) (R.seen raws.old) }
        requires asks { request_of wanted.pooled wanted.n ≡ request wanted.letter wanted.n }

        // What block there is.
        ensures made { IfOk result (λ made.
            IsMade wanted.letter wanted.n (fill_of wanted.zero) locked
            self.old self.new made.got made.asked) }
        ensures failed { OnErr result (self.new ≡ self.old) }
        ensures came_to_ask { OnErr result (decision wanted.letter wanted.n locked None ≡ asks) }

        // What the sources were asked.
        ensures answered { IfOk result (λ made. AreAnswered made.asked
            (A.seen arenas.old) (A.seen arenas.new) (R.seen raws.old) (R.seen raws.new)) }
        ensures plans { SamePlans
            (A.seen arenas.old) (A.seen arenas.new) (R.seen raws.old) (R.seen raws.new) }
        ensures once { OnErr result (AreAskedOnce
            (A.seen arenas.old) (A.seen arenas.new) (R.seen raws.old) (R.seen raws.new)) }

        // What the domains hold.
        ensures traded { AreTraded self.old self.new
            (A.seen arenas.old) (A.seen arenas.new) (R.seen raws.old) (R.seen raws.new) }
        ensures held { AreHeld self.new (A.seen arenas.new) (R.seen raws.new) }
        ensures sound { AreSound self.new.heap self.new.raws }
    {
        // A read of a field tells what always holds of both heaps, which each answer says again.
        let _inside = &self.heap;
        match decide(wanted.letter, wanted.n, locked, None) {
            Decision::TooGreat => Ok(Made {
                got: Got::Null,
                asked: NOT_ASKED,
            }),
            Decision::Faults(found) => Ok(Made {
                got: Got::Fault(found),
                asked: NOT_ASKED,
            }),
            Decision::Asks => self.take(wanted, arenas, raws),
        }
    }

    /// A block of n bytes of data in the letter's domain. With the 24 bytes of the hooks it lies in a
    /// pool where the domain is not raw and there are at most 512, and no arena was refused; else in a
    /// region of its own. It is null where the size is too great or the raw source refused, and a fault
    /// where the domain needs the interpreter lock and the call does not have it. The error is that
    /// there was no memory, and never that the raw source refused; then nothing has changed, and all
    /// that a source granted has gone back.
    pub fn malloc<A: ArenaSource, R: RawSource>(
        &mut self,
        letter: Letter,
        n: u64,
        locked: bool,
        arenas: &mut A,
        raws: &mut R,
    ) -> Result<Made, AllocError>
        requires ask { CanAsk self.old (A.seen arenas.old) (R.seen raws.old) }
        requires held { AreHeld self.old (A.seen arenas.old) (R.seen raws.old) }

        // What block there is.
        ensures made { IfOk result (λ made.
            IsMade letter n new_byte locked self.old self.new made.got made.asked) }
        ensures failed { OnErr result (self.new ≡ self.old) }
        ensures came_to_ask { OnErr result (decision letter n locked None ≡ asks) }

        // What the sources were asked.
        ensures answered { IfOk result (λ made. AreAnswered made.asked
            (A.seen arenas.old) (A.seen arenas.new) (R.seen raws.old) (R.seen raws.new)) }
        ensures plans { SamePlans
            (A.seen arenas.old) (A.seen arenas.new) (R.seen raws.old) (R.seen raws.new) }
        ensures once { OnErr result (AreAskedOnce
            (A.seen arenas.old) (A.seen arenas.new) (R.seen raws.old) (R.seen raws.new)) }

        // What the domains hold.
        ensures traded { AreTraded self.old self.new
            (A.seen arenas.old) (A.seen arenas.new) (R.seen raws.old) (R.seen raws.new) }
        ensures held { AreHeld self.new (A.seen arenas.new) (R.seen raws.new) }
        ensures sound { AreSound self.new.heap self.new.raws }
    {
        let wanted = Wanted {
            letter,
            n,
            zero: false,
            pooled: uses_pools(letter),
        };
        self.make(wanted, locked, arenas, raws)
    }

    /// A block for so many elements of `elsize` bytes each, whose bytes of data are 00. It is null where
    /// their product is too great as a size, however great it is. All else is as in `malloc`.
    pub fn calloc<A: ArenaSource, R: RawSource>(
        &mut self,
        letter: Letter,
        nelem: u64,
        elsize: u64,
        locked: bool,
        arenas: &mut A,
        raws: &mut R,
    ) -> Result<Made, AllocError>
        requires ask { CanAsk self.old (A.seen arenas.old) (R.seen raws.old) }
        requires held { AreHeld self.old (A.seen arenas.old) (R.seen raws.old) }

        // What block there is.
        ensures made { IfOk result (λ made.
            IsMade letter (nelem * elsize) 0 locked self.old self.new made.got made.asked) }
        ensures failed { OnErr result (self.new ≡ self.old) }
        ensures came_to_ask { OnErr result (decision letter (nelem * elsize) locked None ≡ asks) }

        // What the sources were asked.
        ensures answered { IfOk result (λ made. AreAnswered made.asked
            (A.seen arenas.old) (A.seen arenas.new) (R.seen raws.old) (R.seen raws.new)) }
        ensures plans { SamePlans
            (A.seen arenas.old) (A.seen arenas.new) (R.seen raws.old) (R.seen raws.new) }
        ensures once { OnErr result (AreAskedOnce
            (A.seen arenas.old) (A.seen arenas.new) (R.seen raws.old) (R.seen raws.new)) }

        // What the domains hold.
        ensures traded { AreTraded self.old self.new
            (A.seen arenas.old) (A.seen arenas.new) (R.seen raws.old) (R.seen raws.new) }
        ensures held { AreHeld self.new (A.seen arenas.new) (R.seen raws.new) }
        ensures sound { AreSound self.new.heap self.new.raws }
    {
        // A read of a field tells what always holds of both heaps, which each answer says again.
        let _inside = &self.heap;
        match nelem.checked_mul(elsize) {
            Some(n) => {
                let wanted = Wanted {
                    letter,
                    n,
                    zero: true,
                    pooled: uses_pools(letter),
                };
                self.make(wanted, locked, arenas, raws)
            }
            None => Ok(Made {
                got: Got::Null,
                asked: NOT_ASKED,
            }),
        }
    }

    /// The fault of a call that needs the interpreter lock and does not have it.
    pub fn need(&self, letter: Letter, locked: bool) -> Option<Fault>
        ensures { result ≡ call_fault letter locked None }
    {
        fault_of_call(letter, locked, None)
    }

    /// Gives up a block, unless the call lacks the lock that it needs or the check of the block finds
    /// damage. Then the block comes back as it was. This takes no memory.
    pub fn free<A: ArenaSource, R: RawSource>(
        &mut self,
        old: Guarded,
        letter: Letter,
        locked: bool,
        arenas: &mut A,
        raws: &mut R,
    ) -> Freed
        requires loan { IsLoan (guard_extent old) self.old }
        requires held { AreHeld self.old (A.seen arenas.old) (R.seen raws.old) }
        ensures freed { IsFreed letter locked old self.old self.new result }
        ensures nothing { AreAskedNothing
            (A.seen arenas.old) (A.seen arenas.new) (R.seen raws.old) (R.seen raws.new) }
        ensures traded { AreTraded self.old self.new
            (A.seen arenas.old) (A.seen arenas.new) (R.seen raws.old) (R.seen raws.new) }
        ensures held { AreHeld self.new (A.seen arenas.new) (R.seen raws.new) }
        ensures sound { AreSound self.new.heap self.new.raws }
    {
        // A read of a field tells what always holds of both heaps, which a fault says again.
        let _inside = &self.heap;
        match fault_of_call(letter, locked, check(&old, letter)) {
            Some(found) => Freed::Fault(old, found),
            None => {
                self.drop_block(old, arenas, raws);
                Freed::Done
            }
        }
    }

    /// Gives up a block without any check of it.
    pub fn drop_block<A: ArenaSource, R: RawSource>(
        &mut self,
        g: Guarded,
        arenas: &mut A,
        raws: &mut R,
    )
        requires loan { IsLoan (guard_extent g) self.old }
        requires held { AreHeld self.old (A.seen arenas.old) (R.seen raws.old) }
        ensures back { IsGivenUp g self.old self.new }
        ensures nothing { AreAskedNothing
            (A.seen arenas.old) (A.seen arenas.new) (R.seen raws.old) (R.seen raws.new) }
        ensures traded { AreTraded self.old self.new
            (A.seen arenas.old) (A.seen arenas.new) (R.seen raws.old) (R.seen raws.new) }
        ensures held { AreHeld self.new (A.seen arenas.new) (R.seen raws.new) }
        ensures sound { AreSound self.new.heap self.new.raws }
    {
        // A block has bytes, so its first one tells whose it is.
        let _size = size(&g);
        let piece = kill(g);
        match self.heap.give(piece, arenas) {
            None => {}
            Some(back) => self.raw.free(back, raws),
        }
    }

    /// How many arenas were granted, given back and out at most, and how many blocks lie in them.
    pub fn counts(&self) -> Counts
        ensures { HasCounts self.now result }
    {
        self.heap.counts()
    }

    /// The shape of the heap of small blocks, and how many blocks are regions of their own. The error is
    /// that there was no memory for it.
    pub fn view(&self) -> Result<View, AllocError>
        ensures { IfOk result (λ view. view ≡ view_of_both self.now) }
    {
        let mut view = self.heap.view()?;
        view.raws = self.raw.live();
        Ok(view)
    }

    /// Gives up the domains, of which no block is left. The arenas go back to their source.
    pub fn end<A: ArenaSource, R: RawSource>(self, arenas: &mut A, raws: &mut R)
        requires none { (self.heap.loans ≡ []) × (self.raws ≡ []) }
        requires held { AreHeld self (A.seen arenas.old) (R.seen raws.old) }
        ensures nothing { AreAskedNothing
            (A.seen arenas.old) (A.seen arenas.new) (R.seen raws.old) (R.seen raws.new) }
        ensures arenas { Traded (regions_of self.heap) [] (A.seen arenas.old) (A.seen arenas.new) }
        ensures raws { R.seen raws.new ≡ R.seen raws.old }
    {
        let Domains { heap, raw } = self;
        heap.end(arenas);
        raw.end();
    }
}
