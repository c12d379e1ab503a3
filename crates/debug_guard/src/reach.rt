ghost use Rattle.std.specs.Prelude.{◌≡◌, IsTrue, false, Some, None, if◌then◌else◌, length};
ghost use Rattle.std.specs.Option.{option_copied};
ghost use Rattle.debug_guard.specs.Guard.{guard_extent};
ghost use Rattle.block_model.specs.Block.{index_of, reaches, peeked, poked};
ghost use Rattle.mem_base.specs.Offset.{IsOffset};

use crate::Guarded;

/// Writes these bytes from an offset on, which is counted in bytes from the data's start, and
/// answers true. Where they do not all lie in the block's body nothing is written, and the answer
/// is false.
pub fn poke(g: &mut Guarded, off: i64, bytes: &[u8]) -> bool
    requires { IsOffset off }
    ensures reach { result ≡ reaches g.old.body off (length bytes.now) }
    ensures written { IsTrue result → g.new ≡ record g.old { body = poked g.old.body off bytes.now } }
    ensures outside { result ≡ false → g.new ≡ g.old }
    ensures size { length g.new.body ≡ length g.old.body }
    ensures extent { guard_extent g.new ≡ guard_extent g.old }
{
    let at = index_of(off);
    let end = g.body().len();
    if at <= end && bytes.len() <= end - at {
        g.write(at, bytes);
        true
    } else {
        false
    }
}

/// So many bytes of the block's body from an offset on, which is counted in bytes from the data's
/// start. `None` where they do not all lie in the body.
pub fn peek(g: &Guarded, off: i64, len: u64) -> Option<&[u8]>
    requires { IsOffset off }
    ensures { option_copied result ≡
        (if reaches g.now.body off len then Some (peeked g.now.body off len) else None) }
{
    let at = index_of(off);
    let body = g.body();
    if at <= body.len() && len <= (body.len() - at) as u64 {
        Some(&body[at..at + len as usize])
    } else {
        None
    }
}

// The index in the body of the byte at an offset from the data's start.
fn index_of(off: i64) -> usize
    requires { IsOffset off }
    ensures { result ≡ index_of off }
{
    if off < 0 {
        8 - off.unsigned_abs() as usize
    } else {
        off as usize + 8
    }
}
