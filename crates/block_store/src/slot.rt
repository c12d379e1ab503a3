//! One slot: a block comes, goes, or is written or read.
ghost use Rattle.std.specs.Prelude.{◌≡◌, ◌<◌, ◌≤◌, List, [], length, get_or, replicate};
ghost use Rattle.std.specs.Prelude.{slice_set, sum_by, vec_capacity, IfOk, IfSome, IfNone, None, Some};
ghost use Rattle.std.specs.Option.{option_copied, option_map};
ghost use Rattle.mem_base.specs.Name.{Name};
ghost use Rattle.mem_base.specs.Offset.{IsOffset};
ghost use Rattle.layout_model.specs.Layout.{Layout};
ghost use Rattle.debug_guard.specs.Guard.{guard_extent};
ghost use Rattle.domain_api.specs.Domains.{IsGivenUp};
ghost use Rattle.domain_api.specs.Held.{AreAskedNothing, AreHeld, AreSound, AreTraded, IsLoan};
ghost use Rattle.event_model.specs.Memory.{free_unless, peek_turn, poke_turn};
ghost use Rattle.event_model.specs.Replies.{fault_in, plain_reply};
ghost use Rattle.block_store.specs.Homes.{Places};
ghost use Rattle.block_store.specs.Replies.{answer_of, answer_to, answer_after, block_left, slots_with, slots_after};
ghost use Rattle.block_store.specs.Slots.{block_in};

use debug_guard::{Guarded, peek, poke, report};
use domain_api::{Domains, Freed, Got, Moved};
use mem_base::{Fault, List, Reply, TextId};
use sources::{ArenaSource, RawSource};
use std::alloc::{AllocError, Global};
use std::mem;

/// Puts a block where there is none.
pub(crate) fn put_new(slots: &mut Vec<Option<Guarded>>, name: TextId, block: Guarded)
    requires there { name.0 < length slots.old.items }
    requires free { get_or slots.old.items name.0 None ≡ None }
    ensures { slots.new.items ≡ slice_set slots.old.items name.0 (Some block) }
{
    match mem::replace(&mut slots[name.0 as usize], Some(block)) {
        None => {}
        Some(_other) => unreachable!(),
    }
}

/// Keeps what a request got, and answers it.
pub(crate) fn keep(slots: &mut Vec<Option<Guarded>>, name: TextId, got: Got) -> Reply
    requires there { name.0 < length slots.old.items }
    requires free { get_or slots.old.items name.0 None ≡ None }
    ensures slots { slots.new.items ≡ slots_with slots.old.items name.0 got }
    ensures answer { (texts : List Name) → plain_reply texts result ≡ answer_to got }
{
    match got {
        Got::Block(block) => {
            put_new(slots, name, block);
            Reply::Ok
        }
        Got::Null => Reply::Null,
        Got::Fault(found) => Reply::Fault(found, None),
    }
}

/// What is answered to a free of nothing, by the fault of the call.
pub(crate) fn answer_to_nothing(found: Option<Fault>) -> Reply
    ensures { (texts : List Name) (l : Layout)
        → plain_reply texts result ≡ (free_unless found l None).answer }
{
    match found {
        Some(found) => Reply::Fault(found, None),
        None => Reply::Ok,
    }
}

// What is answered to a call that found this fault, in this block.
fn fault_reply(block: &Guarded, found: Fault) -> Reply
    ensures { (texts : List Name) → plain_reply texts result ≡ fault_in block.now.body found }
{
    match found {
        Fault::Unlocked => Reply::Fault(found, None),
        Fault::BadId { .. } | Fault::BadLead(_) | Fault::BadTail(_) => {
            Reply::Fault(found, Some(report(block)))
        }
    }
}

/// Puts back a block that was not given up, and answers the call.
pub(crate) fn put_back(slots: &mut Vec<Option<Guarded>>, name: TextId, freed: Freed) -> Reply
    requires there { name.0 < length slots.old.items }
    requires free { get_or slots.old.items name.0 None ≡ None }
    ensures slots { slots.new.items ≡ slots_after slots.old.items name.0 freed }
    ensures answer { (texts : List Name) → plain_reply texts result ≡ answer_after freed }
{
    match freed {
        Freed::Done => Reply::Ok,
        Freed::Fault(block, found) => {
            let reply = fault_reply(&block, found);
            put_new(slots, name, block);
            reply
        }
    }
}

/// Keeps the block that a realloc left, and answers the call.
pub(crate) fn keep_moved(slots: &mut Vec<Option<Guarded>>, name: TextId, moved: Moved) -> Reply
    requires there { name.0 < length slots.old.items }
    requires free { get_or slots.old.items name.0 None ≡ None }
    ensures slots { slots.new.items ≡ slice_set slots.old.items name.0 (Some (block_left moved)) }
    ensures answer { (texts : List Name) → plain_reply texts result ≡ answer_of moved }
{
    match moved {
        Moved::Block(block) => {
            put_new(slots, name, block);
            Reply::Ok
        }
        Moved::Null(block) => {
            put_new(slots, name, block);
            Reply::Null
        }
        Moved::Fault(block, found) => {
            let reply = fault_reply(&block, found);
            put_new(slots, name, block);
            reply
        }
    }
}

/// Writes bytes at an offset from the data of a slot's block.
pub(crate) fn poke_slot(slot: &mut Option<Guarded>, offset: i64, bytes: &[u8]) -> Reply
    requires { IsOffset offset }
    ensures block { (places : Places) (l : Layout)
        → block_in places slot.new ≡ (poke_turn offset bytes.now l (block_in places slot.old)).block }
    ensures answer { (texts : List Name) (places : Places) (l : Layout)
        → plain_reply texts result ≡ (poke_turn offset bytes.now l (block_in places slot.old)).answer }
    ensures stays { option_map guard_extent slot.new ≡ option_map guard_extent slot.old }
{
    let Some(block) = slot else {
        return Reply::Absent;
    };
    if poke(block, offset, bytes) {
        Reply::Ok
    } else {
        Reply::Outside
    }
}

/// Reads bytes at an offset from the data of a slot's block.
pub(crate) fn peek_slot(
    alloc: Global,
    slot: Option<&Guarded>,
    offset: i64,
    count: u64,
) -> Result<Reply, AllocError>
    requires { IsOffset offset }
    ensures { IfOk result (λ reply. (texts : List Name) (places : Places) (l : Layout)
        → plain_reply texts reply
        ≡ (peek_turn offset count l (block_in places (option_copied slot.entry))).answer) }
{
    let Some(block) = slot else {
        return Ok(Reply::Absent);
    };
    let Some(found) = peek(block, offset, count) else {
        return Ok(Reply::Outside);
    };
    let bytes = List::from_slice(alloc, found)?;
    Ok(Reply::Bytes(bytes))
}

/// Gives up the block of a slot, where there is one.
pub(crate) fn drop_slot<A: ArenaSource, R: RawSource>(
    slot: Option<Guarded>,
    domains: &mut Domains,
    arenas: &mut A,
    raws: &mut R,
)
    requires loan { IfSome slot (λ block. IsLoan (guard_extent block) domains.old) }
    requires sound { AreSound domains.old.heap domains.old.raws }
    requires held { AreHeld domains.old (A.seen arenas.old) (R.seen raws.old) }
    ensures back { IfSome slot (λ block. IsGivenUp block domains.old domains.new) }
    ensures none { IfNone slot (domains.new ≡ domains.old) }
    ensures nothing { AreAskedNothing
        (A.seen arenas.old) (A.seen arenas.new) (R.seen raws.old) (R.seen raws.new) }
    ensures traded { AreTraded domains.old domains.new
        (A.seen arenas.old) (A.seen arenas.new) (R.seen raws.old) (R.seen raws.new) }
    ensures held { AreHeld domains.new (A.seen arenas.new) (R.seen raws.new) }
    ensures sound { AreSound domains.new.heap domains.new.raws }
{
    if let Some(block) = slot {
        domains.drop_block(block, arenas, raws);
    }
}

/// No block at any of so many numbers.
pub(crate) fn empty_slots(mut slots: Vec<Option<Guarded>>, count: usize) -> Vec<Option<Guarded>>
    requires empty { slots.items ≡ [] }
    requires room { count ≤ vec_capacity slots }
    ensures { result.items ≡ replicate count None }
{
    for _ in 0..count {
        slots.push_reserved(None);
    }
    slots
}
