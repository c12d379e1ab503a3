//! Numbers, written in decimal.
ghost use Rattle.std.specs.Prelude.{◌≡◌, ◌+◌, ◌%◌, ◌++◌, OnOk, OnErr, decimal};
ghost use Rattle.line_text.specs.Texts.{StaysInFront};

use itoa::Buffer;
use std::alloc::AllocError;

// The last digit of a number.
fn last(n: u64) -> u8
    ensures { result ≡ 48 + n % 10 }
{
    b'0' + (n % 10) as u8
}

// Adds a number of many digits.
fn push_long(text: &mut Vec<u8>, n: u64) -> Result<(), AllocError>
    ensures ok { OnOk result (text.new.items ≡ text.old.items ++ decimal n) }
    ensures err { OnErr result (text.new.items ≡ text.old.items) }
{
    let mut buffer = Buffer::new();
    text.extend_from_slice(buffer.format(n).as_bytes())
}

/// Adds a number in decimal to the end of a text. The error is that there was no memory for it, and
/// the text is as it was. Most numbers have few digits, which are written where they will stand.
#[tactic(auto, using(crate::proofs::Decimals::few_digits))]
pub fn push_number(text: &mut Vec<u8>, n: u64) -> Result<(), AllocError>
    ensures ok { OnOk result (text.new.items ≡ text.old.items ++ decimal n) }
    ensures err { OnErr result (text.new.items ≡ text.old.items) }
{
    match n {
        0..=9 => text.extend_from_slice(&[last(n)]),
        10..=99 => text.extend_from_slice(&[last(n / 10), last(n)]),
        100..=999 => text.extend_from_slice(&[last(n / 100), last(n / 10), last(n)]),
        1000..=9999 => {
            text.extend_from_slice(&[last(n / 1000), last(n / 100), last(n / 10), last(n)])
        }
        10_000..=99_999 => text.extend_from_slice(&[
            last(n / 10_000),
            last(n / 1000),
            last(n / 100),
            last(n / 10),
            last(n),
        ]),
        100_000..=999_999 => text.extend_from_slice(&[
            last(n / 100_000),
            last(n / 10_000),
            last(n / 1000),
            last(n / 100),
            last(n / 10),
            last(n),
        ]),
        _ => push_long(text, n),
    }
}

/// Adds a number of up to 128 bits in decimal to the end of a text. The error is that there was no memory for it,
/// and what stood in the text stands in front of it still.
pub fn push_wide(text: &mut Vec<u8>, n: u128) -> Result<(), AllocError>
    ensures ok { OnOk result (text.new.items ≡ text.old.items ++ decimal n) }
    ensures err { OnErr result (StaysInFront text.old.items text.new.items) }
{
    let mut buffer = Buffer::new();
    text.extend_from_slice(buffer.format(n).as_bytes())
}
