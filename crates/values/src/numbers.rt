// Integers and decimals: their value spaces and their order.
ghost use Rattle.std.specs.Prelude.{◌≡◌, true, ◌&&◌, ◌*◌, ◌-◌, ◌^◌, leb, ltb};
ghost use Rattle.packed.specs.code.Comparison.{ordering};
ghost use Rattle.values.specs.Decimal.{are_digits, is_natural, is_negative, numeral};
ghost use Rattle.values.specs.Spaces.{Kind, is_width, is_unsigned, is_signed, is_magnitude, is_decimal, is_of_kind};
ghost use Rattle.values.specs.ValueOrder.{value_order};
ghost use Rattle.values.specs.code.NumberAnswer.{is_number, size_order, has_nonzero, IsNumeral};

use crate::calendar::is_digit;
use packed::order::compare;
use std::cmp::Ordering;

fn are_digits(v: &[u8]) -> bool
    ensures { result ≡ are_digits v.now }
{
    v.iter().all(|b| is_digit(*b))
}

// Digits, and no leading zero but a lone 0.
#[tactic(auto, unfolding(crate::specs::Decimal::is_natural, crate::specs::Decimal::are_digits))]
fn is_natural(v: &[u8]) -> bool
    ensures { result ≡ is_natural v.now }
{
    match v {
        [] => false,
        [b] => is_digit(*b),
        [b, ..] => *b != b'0' && are_digits(v),
    }
}

#[tactic(auto, unfolding(crate::specs::Decimal::is_negative))]
fn is_negative(v: &[u8]) -> bool
    ensures { result ≡ is_negative v.now }
{
    matches!(v, [b'-', ..])
}

// By length, then by bytes: so natural numerals come by their numbers.
fn by_size(a: &[u8], b: &[u8]) -> Ordering
    ensures { ordering result ≡ size_order a.now b.now }
{
    if a.len() < b.len() {
        return Ordering::Less;
    }
    if b.len() < a.len() {
        return Ordering::Greater;
    }
    compare(a, b)
}

// The first of two natural numerals is the smaller number.
fn is_less(a: &[u8], b: &[u8]) -> bool
    ensures { is_natural a.now ≡ true → is_natural b.now ≡ true →
        result ≡ ltb (numeral a.now) (numeral b.now) }
{
    matches!(by_size(a, b), Ordering::Less)
}

// The numerals of 2^(8 * width - 1) and 2^(8 * width).
fn powers(width: u8) -> (&'static [u8], &'static [u8])
    ensures { is_width width ≡ true →
        IsNumeral result.0.now (2 ^ (8 * width - 1)) × IsNumeral result.1.now (2 ^ (8 * width)) }
{
    match width {
        1 => (b"128", b"256"),
        2 => (b"32768", b"65536"),
        3 => (b"8388608", b"16777216"),
        4 => (b"2147483648", b"4294967296"),
        _ => (b"9223372036854775808", b"18446744073709551616"),
    }
}

#[tactic(auto, unfolding(crate::specs::Spaces::is_unsigned))]
pub fn is_unsigned(width: u8, v: &[u8]) -> bool
    ensures { is_width width ≡ true → result ≡ is_unsigned width v.now }
{
    is_natural(v) && is_less(v, powers(width).1)
}

// What follows the minus sign of a negative integer.
#[tactic(auto, using(crate::proofs::NumberStepLaws::natural_zero), unfolding(crate::specs::Decimal::is_natural))]
fn is_below_zero(width: u8, m: &[u8]) -> bool
    ensures { is_width width ≡ true →
        result ≡ is_natural m.now && (ltb 0 (numeral m.now) && leb (numeral m.now) (2 ^ (8 * width - 1))) }
{
    is_natural(m) && m[0] != b'0' && !is_less(powers(width).0, m)
}

#[tactic(auto, unfolding(crate::specs::Decimal::is_negative, crate::specs::Decimal::magnitude, crate::specs::Spaces::is_signed))]
pub fn is_signed(width: u8, v: &[u8]) -> bool
    ensures { is_width width ≡ true → result ≡ is_signed width v.now }
{
    match v {
        [b'-', m @ ..] => is_below_zero(width, m),
        _ => is_natural(v) && is_less(v, powers(width).0),
    }
}

fn has_nonzero(v: &[u8]) -> bool
    ensures { result ≡ has_nonzero v.now }
{
    v.iter().any(|b| b'0' < *b)
}

// A decimal without its sign.
#[tactic(auto, using(crate::proofs::NumberStepLaws::magnitudes))]
fn is_magnitude(total: u8, after: u8, m: &[u8]) -> bool
    ensures { result ≡ is_magnitude total after m.now }
{
    let Some(point) = m.len().checked_sub(usize::from(after) + 1) else {
        return false;
    };
    m.len() <= usize::from(total) + 1
        && m[point] == b'.'
        && is_natural(&m[..point])
        && are_digits(&m[point + 1..])
}

#[tactic(auto, using(crate::proofs::NumberStepLaws::signs))]
pub fn is_decimal(total: u8, after: u8, sign: bool, v: &[u8]) -> bool
    ensures { result ≡ is_decimal total after sign v.now }
{
    match v {
        [b'-', m @ ..] => sign && has_nonzero(m) && is_magnitude(total, after, m),
        _ => is_magnitude(total, after, v),
    }
}

// Two numbers of one kind: by sign, then by length, then by bytes.
pub fn compare_numbers(a: &[u8], b: &[u8]) -> Ordering
    ensures { (k : Kind) → is_number k ≡ true → is_of_kind k a.now ≡ true → is_of_kind k b.now ≡ true →
        ordering result ≡ (value_order k).cmp a.now b.now }
{
    match (is_negative(a), is_negative(b)) {
        (true, true) => by_size(b, a),
        (true, false) => Ordering::Less,
        (false, true) => Ordering::Greater,
        (false, false) => by_size(a, b),
    }
}
