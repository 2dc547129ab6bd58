// The value spaces of the nine kinds, and the order of the values of kinds 1 to 6.
ghost use Rattle.std.specs.Prelude.{◌≡◌, true, not, ◌&&◌, ◌||◌, [], ◌∷◌, ◌-◌, ◌*◌, ◌≤◌, leb, eqb, length, take, drop};
ghost use Rattle.std.proofs.Math.Option.{some};
ghost use Rattle.model.specs.Order.{texts, equal, pick};
ghost use Rattle.model.specs.Sets.{union};
ghost use Rattle.packed.specs.Ascii.{ascii};
ghost use Rattle.packed.specs.code.Comparison.{ordering};
ghost use Rattle.values.specs.Unicode.{is_utf8};
ghost use Rattle.values.specs.Spaces.{Kind, kind_number, string_number, is_kind, is_hex_digit, are_hex_digits, is_of_kind, in_space};
ghost use Rattle.values.specs.ValueOrder.{is_ordered, value_order, extreme_order};
ghost use Rattle.values.specs.code.KindNumbers.{kind_of, is_ordered_number};
ghost use Rattle.values.specs.code.LowBytes.{AllLow};

use crate::calendar::{compare_moments, is_datetime, is_digit};
use crate::kinds::{BOOLEAN, CURRENCY, DATETIME, DECIMAL, HEX, SEQUENCE, SIGNED, STRING, UNSIGNED};
use crate::numbers::{compare_numbers, is_decimal, is_signed, is_unsigned};
use crate::unicode::{is_ascii, is_utf8};
use std::cmp::Ordering;

#[tactic(auto, using(crate::proofs::SpaceLaws::booleans), unfolding(packed::specs::Ascii::ascii))]
fn is_boolean(v: &[u8]) -> bool
    ensures { result ≡ (equal texts v.now (ascii "true") || equal texts v.now (ascii "false")) }
{
    matches!(v, b"true" | b"false")
}

#[tactic(auto, unfolding(crate::specs::Spaces::is_hex_digit))]
fn is_hex_digit(b: u8) -> bool
    ensures { result ≡ is_hex_digit b }
{
    is_digit(b) || matches!(b, b'a'..=b'f')
}

// By positions: so the compiler takes two bytes a turn, which of an iterator's `all` it does not, and a hex value's space is asked of every byte.
fn are_hex_digits(v: &[u8]) -> bool
    ensures { result ≡ are_hex_digits v.now }
{
    for i in 0..v.len() {
        if !is_hex_digit(v[i]) {
            return false;
        }
    }
    true
}

fn is_hex(bytes: u8, v: &[u8]) -> bool
    ensures { result ≡ (eqb (length v.now) (2 * bytes) && are_hex_digits v.now) }
{
    v.len() == 2 * usize::from(bytes) && are_hex_digits(v)
}

fn is_string(most: u8, v: &[u8]) -> bool
    ensures { result ≡ (leb (length v.now) most && is_utf8 v.now) }
{
    v.len() <= usize::from(most) && is_utf8(v)
}

// The value space of each kind, without the bounds of all values.
#[tactic(auto, unfolding(crate::specs::Spaces::is_of_kind, crate::specs::Spaces::is_kind, crate::specs::code::KindNumbers::kind_of))]
fn is_of_kind(kind: u8, size: u8, after: u8, sign: u8, v: &[u8]) -> bool
    ensures { (k : Kind) → kind_of kind size after sign ≡ some k → is_kind k ≡ true → result ≡ is_of_kind k v.now }
{
    match kind {
        UNSIGNED => is_unsigned(size, v),
        SIGNED => is_signed(size, v),
        DECIMAL => is_decimal(size, after, sign == 1, v),
        CURRENCY => is_decimal(19, 4, true, v),
        SEQUENCE => is_unsigned(8, v),
        DATETIME => is_datetime(v),
        BOOLEAN => is_boolean(v),
        STRING => is_string(size, v),
        HEX => is_hex(size, v),
        _ => false,
    }
}

// The value is in the space of its kind.
#[tactic(auto, unfolding(crate::specs::Spaces::in_space))]
pub fn in_space(kind: u8, size: u8, after: u8, sign: u8, v: &[u8]) -> bool
    ensures { (k : Kind) → kind_of kind size after sign ≡ some k → is_kind k ≡ true → result ≡ in_space k v.now }
{
    matches!(v.len(), 1..=120) && is_of_kind(kind, size, after, sign, v)
}

// Whether all of v is of strings, and has no byte above 7F. Then its parts are told by their lengths.
pub fn is_plain(kind: u8, v: &[u8]) -> bool
    ensures { result ≡ true → (kind ≡ string_number) × AllLow v.now }
{
    kind == STRING && is_ascii(v)
}

pub fn is_short(most: u8, length: usize) -> bool
    ensures { result ≡ (leb 1 length && leb length 120 && leb length most) }
{
    matches!(length, 1..=120) && length <= usize::from(most)
}

// "Kinds 1 to 6 are ordered by their numbers or instants"
pub fn is_ordered(kind: u8) -> bool
    ensures { result ≡ is_ordered_number kind }
{
    matches!(kind, UNSIGNED..=DATETIME)
}

// Two values of an ordered kind by number or instant; of no other kind is anything said.
#[tactic(auto, unfolding(crate::specs::Spaces::in_space, crate::specs::Spaces::is_of_kind))]
pub fn compare_values(kind: u8, a: &[u8], b: &[u8]) -> Ordering
    ensures { (k : Kind) → kind_number k ≡ kind → is_ordered k ≡ true →
        in_space k a.now ≡ true → in_space k b.now ≡ true →
        ordering result ≡ (value_order k).cmp a.now b.now }
{
    match kind {
        UNSIGNED..=SEQUENCE => compare_numbers(a, b),
        DATETIME => compare_moments(a, b),
        _ => Ordering::Equal,
    }
}

// Whether the first of two values is the chosen one.
pub fn takes_first(order: Ordering, largest: bool) -> bool
    ensures { result ≡ pick (ordering order) (not largest) true largest }
{
    match order {
        Ordering::Less => !largest,
        Ordering::Equal => true,
        Ordering::Greater => largest,
    }
}

// The smaller of two values, or the larger, where it stands.
pub fn choose<'a>(
    kind: u8,
    largest: bool,
    left: &'a [u8],
    a: usize,
    e: usize,
    right: &'a [u8],
    b: usize,
    f: usize,
) -> &'a [u8]
    requires a_le_e { (a ≤ e) × (e ≤ length left.now) }
    requires b_le_f { (b ≤ f) × (f ≤ length right.now) }
    ensures { (k : Kind) → kind_number k ≡ kind → is_ordered k ≡ true →
        in_space k (take (e - a) (drop a left.now)) ≡ true → in_space k (take (f - b) (drop b right.now)) ≡ true →
        result.now ∷ [] ≡ take 1 (union (extreme_order largest k)
        (take (e - a) (drop a left.now) ∷ []) (take (f - b) (drop b right.now) ∷ [])) }
{
    let x = &left[a..e];
    let y = &right[b..f];
    if takes_first(compare_values(kind, x, y), largest) {
        x
    } else {
        y
    }
}
