//! Numbers in decimal digits.
ghost use Rattle.std.specs.Prelude.{◌≡◌, ◌==◌, ◌++◌, OnOk, OnErr, if◌then◌else◌, drop, slice_index};
ghost use Rattle.std.specs.Char.{is_ascii_digit};
ghost use Rattle.std.specs.List.{list_all};
ghost use Rattle.std.specs.Fmt.{decimal, signed_decimal};
ghost use Rattle.gob_bytes.specs.Additions.{AddsFront};
ghost use Rattle.gob_bytes.specs.Digits.{offset};
ghost use Rattle.gob_bytes.specs.Numbers.{has_spare_zero, number_read, integer_read};

use itoa::Buffer;
use std::alloc::AllocError;
use std::str;

const OFFSET_DIGITS: usize = 20;

fn are_digits(text: &[u8]) -> bool
    ensures { result ≡ list_all is_ascii_digit text.now }
{
    text.iter().all(|b| b.is_ascii_digit())
}

// Whether more digits follow a zero.
fn has_spare_zero(text: &[u8]) -> bool
    ensures { result ≡ has_spare_zero text.now }
{
    match text {
        [first, _, ..] => *first == b'0',
        _ => false,
    }
}

/// The number that the text writes in its one form.
pub fn read_u64(text: &[u8]) -> Option<u64>
    ensures { result ≡ number_read text.now }
{
    if !are_digits(text) {
        return None;
    }
    if has_spare_zero(text) {
        return None;
    }
    match str::from_utf8(text) {
        Ok(digits) => digits.parse().ok(),
        Err(_) => None,
    }
}

fn without_minus(text: &[u8]) -> &[u8]
    ensures { result.now
        ≡ (if slice_index text.now 0 == 45 then drop 1 text.now else text.now) }
{
    match text {
        [b'-', digits @ ..] => digits,
        _ => text,
    }
}

/// The integer that the text writes; it may have zeros in front.
pub fn read_i64(text: &[u8]) -> Option<i64>
    ensures { result ≡ integer_read text.now }
{
    if !are_digits(without_minus(text)) {
        return None;
    }
    match str::from_utf8(text) {
        Ok(integer) => integer.parse().ok(),
        Err(_) => None,
    }
}

/// Appends the number in decimal digits.
pub fn push_u64(into: &mut Vec<u8>, n: u64) -> Result<(), AllocError>
    ensures ok { OnOk result (into.new.items ≡ into.old.items ++ decimal n) }
    ensures err { OnErr result (AddsFront into.old.items into.new.items (decimal n)) }
{
    into.extend_from_slice(Buffer::new().format(n).as_bytes())
}

/// Appends the integer in decimal digits, with `-` in front where it is negative.
pub fn push_i64(into: &mut Vec<u8>, n: i64) -> Result<(), AllocError>
    ensures ok { OnOk result (into.new.items ≡ into.old.items ++ signed_decimal n) }
    ensures err { OnErr result (AddsFront into.old.items into.new.items (signed_decimal n)) }
{
    into.extend_from_slice(Buffer::new().format(n).as_bytes())
}

fn offset_digits(mut n: u64) -> [u8; OFFSET_DIGITS]
    ensures { result ≡ offset n }
{
    let mut digits = [0; OFFSET_DIGITS];
    for i in (0..OFFSET_DIGITS).rev() {
        digits[i] = b'0' + (n % 10) as u8;
        n /= 10;
    }
    digits
}

/// Appends the number with zeros in front, as twenty digits.
pub fn push_offset(into: &mut Vec<u8>, n: u64) -> Result<(), AllocError>
    ensures ok { OnOk result (into.new.items ≡ into.old.items ++ offset n) }
    ensures err { OnErr result (AddsFront into.old.items into.new.items (offset n)) }
{
    into.extend_from_slice(&offset_digits(n))
}
