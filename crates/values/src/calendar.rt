// Moments of the Gregorian calendar.
ghost use Rattle.std.specs.Prelude.{◌≡◌, ◌⊎◌, true, cond, ◌&&◌, ◌||◌, ltb, leb, eqb, length};
ghost use Prim.Native.Nat.{◌+◌, ◌-◌, ◌*◌, ◌≤◌, ◌<◌, compare};
ghost use Rattle.packed.specs.code.Comparison.{ordering};
ghost use Rattle.values.specs.Decimal.{is_digit};
ghost use Rattle.values.specs.Calendar.{has_form, whole_second, with_fraction, field, year, month, day, hour, minute, second, microsecond};
ghost use Rattle.values.specs.Calendar.{is_leap, days_in, is_moment, is_datetime};
ghost use Rattle.values.specs.Spaces.{datetime};
ghost use Rattle.values.specs.ValueOrder.{value_order};

use std::cmp::Ordering;

#[tactic(auto, unfolding(crate::specs::Decimal::is_digit))]
pub fn is_digit(b: u8) -> bool
    ensures { result ≡ is_digit b }
{
    b.is_ascii_digit()
}

// A byte stands where the form has f.
fn matches(f: u8, b: u8) -> bool
    ensures { result ≡ cond (eqb f 48) (is_digit b) (eqb f b) }
{
    if f == b'0' { is_digit(b) } else { f == b }
}

// The text has the form: a 0 of it stands for any digit, another byte for itself.
pub fn has_form(form: &[u8], v: &[u8]) -> bool
    ensures { result ≡ has_form form.now v.now }
{
    form.len() == v.len() && form.iter().zip(v).all(|(f, b)| matches(*f, *b))
}

// What a byte counts for as a digit. No byte is refused here, so that a field can be read from any text.
fn digit(b: u8) -> u32
    ensures { result ≡ b - 48 }
{
    u32::from(b.saturating_sub(b'0'))
}

#[tactic(auto, unfolding(crate::specs::Decimal::numeral, crate::specs::Decimal::numeral_after, crate::specs::Calendar::field))]
fn two(v: &[u8], at: usize) -> u32
    requires { at + 2 ≤ length v.now }
    ensures number { result ≡ field v.now at 2 }
    ensures most { result < 2500 }
{
    10 * digit(v[at]) + digit(v[at + 1])
}

fn four(v: &[u8], at: usize) -> u32
    requires { at + 4 ≤ length v.now }
    ensures number { result ≡ field v.now at 4 }
    ensures most { result < 260000 }
{
    100 * two(v, at) + two(v, at + 2)
}

// The digits after the point of a whole second or of one with six digits.
#[tactic(auto, unfolding(crate::specs::Decimal::numeral, crate::specs::Decimal::numeral_after, crate::specs::Calendar::field))]
fn fraction(v: &[u8]) -> u32
    ensures { (length v.now ≡ 20) ⊎ (26 ≤ length v.now) → result ≡ field v.now 20 6 }
{
    if v.len() < 26 {
        0
    } else {
        100 * four(v, 20) + two(v, 24)
    }
}

#[tactic(auto, unfolding(crate::specs::Calendar::is_leap))]
fn is_leap(y: u32) -> bool
    ensures { result ≡ is_leap y }
{
    y % 4 == 0 && (y % 100 != 0 || y % 400 == 0)
}

#[tactic(auto, unfolding(crate::specs::Calendar::days_in))]
fn days_in(y: u32, m: u32) -> u32
    ensures { result ≡ days_in y m }
{
    match m {
        2 if is_leap(y) => 29,
        2 => 28,
        4 | 6 | 9 | 11 => 30,
        _ => 31,
    }
}

fn is_day(y: u32, m: u32, d: u32) -> bool
    ensures { result ≡ (leb 1 y && leb 1 m && leb m 12 && leb 1 d && leb d (days_in y m)) }
{
    1 <= y && 1 <= m && m <= 12 && 1 <= d && d <= days_in(y, m)
}

#[tactic(auto, unfolding(crate::specs::Calendar::is_moment))]
fn is_moment(v: &[u8]) -> bool
    requires { 20 ≤ length v.now }
    ensures { result ≡ is_moment v.now }
{
    is_day(four(v, 0), two(v, 5), two(v, 8))
        && two(v, 11) <= 23
        && two(v, 14) <= 59
        && two(v, 17) <= 59
}

// Of a whole second, or with a fraction that is not 0.
fn has_datetime_form(v: &[u8]) -> bool
    ensures { result ≡ (whole_second v.now || (with_fraction v.now && ltb 0 (microsecond v.now))) }
{
    has_form(b"0000-00-00T00:00:00Z", v)
        || has_form(b"0000-00-00T00:00:00.000000Z", v) && 0 < fraction(v)
}

#[tactic(auto, using(crate::proofs::InstantLaws::formed_long), unfolding(crate::specs::Calendar::is_datetime))]
pub fn is_datetime(v: &[u8]) -> bool
    ensures { result ≡ is_datetime v.now }
{
    has_datetime_form(v) && is_moment(v)
}

// The digits of date and time as one number.
fn stamp(v: &[u8]) -> u64
    requires { 20 ≤ length v.now }
    ensures { result ≡ ((((year v.now * 100 + month v.now) * 100 + day v.now) * 100
        + hour v.now) * 100 + minute v.now) * 100 + second v.now }
{
    let month = u64::from(four(v, 0)) * 100 + u64::from(two(v, 5));
    let hour = (month * 100 + u64::from(two(v, 8))) * 100 + u64::from(two(v, 11));
    (hour * 100 + u64::from(two(v, 14))) * 100 + u64::from(two(v, 17))
}

fn compare_fractions(f: u32, g: u32) -> Ordering
    ensures { ordering result ≡ compare f g }
{
    if f < g {
        return Ordering::Less;
    }
    if g < f {
        return Ordering::Greater;
    }
    Ordering::Equal
}

// Two datetimes by their instants. No days are counted: moments come by the digits of date and time, and within a second by the fraction.
pub fn compare_moments(a: &[u8], b: &[u8]) -> Ordering
    ensures { is_datetime a.now ≡ true → is_datetime b.now ≡ true →
        ordering result ≡ (value_order datetime).cmp a.now b.now }
{
    if a.len() < 20 || b.len() < 20 {
        return Ordering::Equal;
    }
    let x = stamp(a);
    let y = stamp(b);
    if x < y {
        return Ordering::Less;
    }
    if y < x {
        return Ordering::Greater;
    }
    compare_fractions(fraction(a), fraction(b))
}
