//! Bits, 64 to a word, of which the first that is 0 is found by a look at each word.
ghost use Rattle.std.specs.Prelude.{◌≡◌, ◌≢◌, ℕ, ◌*◌, ◌<◌, ◌≤◌, length, IfOk};
ghost use Rattle.sources.specs.Bits.{bit_in, HasClear};

use std::alloc::{AllocError, Global};

// Words of bits that are all 0.
pub(crate) fn clear_bits(alloc: Global, words: usize) -> Result<Vec<u64>, AllocError>
    ensures length { IfOk result (λ v. length v.items ≡ words) }
    ensures clear { IfOk result (λ v. (j : ℕ) → bit_in v.items j ≡ 0) }
{
    Vec::from_elem(alloc, 0u64, words)
}

// Sets a bit to 1.
pub(crate) fn set_bit(words: &mut Vec<u64>, k: usize)
    requires { k < 64 * length words.old.items }
    ensures set { bit_in words.new.items k ≡ 1 }
    ensures others { (j : ℕ) → j ≢ k → bit_in words.new.items j ≡ bit_in words.old.items j }
    ensures length { length words.new.items ≡ length words.old.items }
{
    let at = k / 64;
    words[at] = words[at] | 1 << (k % 64);
}

// Sets a bit to 0.
pub(crate) fn clear_bit(words: &mut Vec<u64>, k: usize)
    requires { k < 64 * length words.old.items }
    ensures clear { bit_in words.new.items k ≡ 0 }
    ensures others { (j : ℕ) → j ≢ k → bit_in words.new.items j ≡ bit_in words.old.items j }
    ensures length { length words.new.items ≡ length words.old.items }
{
    let at = k / 64;
    words[at] = words[at] & !(1 << (k % 64));
}

// The first bit that is 0.
pub(crate) fn first_clear(words: &[u64]) -> usize
    requires few { length words.now ≤ 16 }
    requires some { HasClear words.now }
    ensures clear { (result < 64 * length words.now) × (bit_in words.now result ≡ 0) }
    ensures below { (j : ℕ) → j < result → bit_in words.now j ≡ 1 }
{
    for (at, word) in words.iter().enumerate() {
        if *word != u64::MAX {
            return at * 64 + word.trailing_ones() as usize;
        }
    }
    unreachable!()
}
