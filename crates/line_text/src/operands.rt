//! Words as numbers, names and files.
ghost use Rattle.std.specs.Prelude.{◌≡◌, ◌*◌, ◌+◌, ◌-◌, ◌^◌, ◌&&◌, nat_lt, Some, None, if◌then◌else◌};
ghost use Rattle.std.specs.List.{list_all};
ghost use Rattle.trace_model.specs.Operands.{digits_from, is_between, is_file, is_file_byte, is_name};
ghost use Rattle.trace_model.specs.Operands.{is_name_byte, number_at};

use crate::lines::is_sign;
use mem_base::limits::{MAX_FILE, MAX_NAME};
use trace_model::TraceCause;

// The number with one more digit, where it fits.
fn with_digit(value: u64, byte: u8) -> Option<u64>
    ensures { result ≡ (let next = value * 10 + (byte - 48) in
        if is_between 48 57 byte && nat_lt next (2 ^ 64) then Some next else None) }
{
    if byte < b'0' || byte > b'9' {
        return None;
    }
    value.checked_mul(10)?.checked_add(u64::from(byte - b'0'))
}

// The number that the digits spell.
fn digits(word: &[u8]) -> Result<u64, TraceCause>
    ensures { result ≡ digits_from 0 word.now }
{
    let mut value = 0;
    for byte in word {
        match with_digit(value, *byte) {
            Some(next) => value = next,
            None => return Err(TraceCause::BadNumber),
        }
    }
    Ok(value)
}

/// A number in decimal, with no zero in front. The error is that the word is none, or that it does not fit 64 bits.
pub fn number(word: &[u8]) -> Result<u64, TraceCause>
    ensures { result ≡ number_at word.now }
{
    match word {
        [] => Err(TraceCause::BadNumber),
        [b'0', _, ..] => Err(TraceCause::BadNumber),
        _ => digits(word),
    }
}

fn is_name_byte(b: u8) -> bool
    ensures { result ≡ is_name_byte b }
{
    matches!(b, b'0'..=b'9' | b'A'..=b'Z' | b'a'..=b'z' | b'_')
}

// Whether each byte may stand in a name.
fn has_name_bytes(word: &[u8]) -> bool
    ensures { result ≡ list_all is_name_byte word.now }
{
    word.iter().all(|b| is_name_byte(*b))
}

/// Whether the word is a name.
pub fn is_name(word: &[u8]) -> bool
    ensures { result ≡ is_name word.now }
{
    !word.is_empty() && word.len() <= MAX_NAME && has_name_bytes(word)
}

// Whether each byte may stand in the name of a file.
fn has_signs(word: &[u8]) -> bool
    ensures { result ≡ list_all is_file_byte word.now }
{
    word.iter().all(|b| is_sign(*b))
}

/// Whether the word may name a file, or be a pattern of such names.
pub fn is_file(word: &[u8]) -> bool
    ensures { result ≡ is_file word.now }
{
    !word.is_empty() && word.len() <= MAX_FILE && has_signs(word)
}
