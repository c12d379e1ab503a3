ghost use Rattle.std.specs.Prelude.{◌≡◌, ◌≢◌, Some, ◌≤◌, ◌<◌, length, IfSome};
ghost use Rattle.block_model.specs.Block.{damage_in, finding_in, report_of};

use crate::guarded::{Guarded, PAD};
use mem_base::{BlockReport, Fault, Letter};

/// The first damage that a call with this letter finds in the block: another letter, then the pads
/// before the data, then those behind it.
pub fn check(g: &Guarded, letter: Letter) -> Option<Fault>
    ensures finding { result ≡ finding_in letter g.now.body }
    ensures never_unlocked { result ≢ Some Fault.Unlocked }
{
    finding_of(g.body(), letter)
}

fn finding_of(body: &[u8], letter: Letter) -> Option<Fault>
    requires { 16 ≤ length body.now }
    ensures { result ≡ finding_in letter body.now }
{
    let found = body[0];
    if found != letter.byte() {
        return Some(Fault::BadId {
            found,
            verified: letter.byte(),
        });
    }
    let head = &body[..8];
    if let Some(k) = damage_of(&head[1..]) {
        return Some(Fault::BadLead(k as u8 + 1));
    }
    match damage_of(&body[body.len() - 8..]) {
        Some(k) => Some(Fault::BadTail(k as u8)),
        None => None,
    }
}

// The index of the first byte that is no pad.
fn damage_of(bytes: &[u8]) -> Option<usize>
    ensures index { result ≡ damage_in bytes.now }
    ensures within { IfSome result (λ k. k < length bytes.now) }
{
    bytes.iter().position(|b| *b != PAD)
}

/// The block's size, the eight bytes before its data, and the eight bytes behind it.
pub fn report(g: &Guarded) -> BlockReport
    ensures { result ≡ report_of g.now.body }
{
    report_on(g.body())
}

fn report_on(body: &[u8]) -> BlockReport
    requires { 16 ≤ length body.now }
    ensures { result ≡ report_of body.now }
{
    let mut head = [0; 8];
    head.copy_from_slice(&body[..8]);
    let mut tail = [0; 8];
    tail.copy_from_slice(&body[body.len() - 8..]);
    BlockReport {
        size: body.len() as u64 - 16,
        head,
        tail,
    }
}
