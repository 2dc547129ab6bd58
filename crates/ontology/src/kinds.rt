ghost use Rattle.std.specs.Prelude.{◌≡◌, ◌-◌, ◌&&◌, drop};
ghost use Rattle.packed.specs.Parse.{such_that};
ghost use Rattle.packed.specs.Packed.{is_within};
ghost use Rattle.values.specs.Spaces.{decimal_number, is_width, is_kind};
ghost use Rattle.ontology.specs.TableLayout.{read_parameters, read_kind};
ghost use Rattle.ontology.specs.code.TypeIndex.{HasOne, parameter_fits, KindReads};

use crate::fields::read_flag;
use packed::read::read_number;
use values::kinds::{BOOLEAN, CURRENCY, DECIMAL, HEX, SIGNED, STRING, UNSIGNED};

// A kind's number and its parameters, those that it has not as 0.
#[derive(Clone, Copy, PartialEq, Eq)]
pub struct KindAt {
    pub kind: u8,
    pub size: u8,
    pub after: u8,
    pub sign: u8,
}

#[tactic(auto, unfolding(values::specs::Spaces::is_width))]
fn is_width(n: u64) -> bool
    ensures { result ≡ is_width n }
{
    matches!(n, 1..=4 | 8)
}

fn is_size(n: u64, most: u64) -> bool
    ensures { result ≡ is_within 1 most n }
{
    0 < n && n <= most
}

// Whether the only parameter of a kind with one is in its range.
#[tactic(auto, unfolding(crate::specs::code::TypeIndex::parameter_fits))]
fn parameter_fits(kind: u8, n: u64) -> bool
    ensures { result ≡ parameter_fits kind n }
{
    if kind <= SIGNED {
        is_width(n)
    } else if kind == STRING {
        is_size(n, 120)
    } else {
        is_size(n, 60)
    }
}

// A kind with one parameter.
fn read_parameter(s: &[u8], at: usize, kind: u8) -> Option<(KindAt, usize)>
    requires { HasOne kind }
    ensures { KindReads (such_that is_kind (read_parameters kind) (drop at s.now)) s.now at result }
{
    let (n, next) = read_number(s, at)?;
    if parameter_fits(kind, n) {
        Some((
            KindAt {
                kind,
                size: n as u8,
                after: 0,
                sign: 0,
            },
            next,
        ))
    } else {
        None
    }
}

// Whether a decimal may have so many digits in all, and so many after the point.
fn digits_fit(total: u64, after: u64) -> bool
    ensures { result ≡ (is_within 2 38 total && is_within 1 (total - 1) after) }
{
    2 <= total && total <= 38 && is_size(after, total - 1)
}

// A decimal's parameters.
fn read_decimal(s: &[u8], at: usize) -> Option<(KindAt, usize)>
    ensures { KindReads (such_that is_kind (read_parameters decimal_number) (drop at s.now)) s.now at result }
{
    let (total, after_total) = read_number(s, at)?;
    let (after, after_point) = read_number(s, after_total)?;
    let (sign, next) = read_flag(s, after_point)?;
    if digits_fit(total, after) {
        Some((
            KindAt {
                kind: DECIMAL,
                size: total as u8,
                after: after as u8,
                sign: sign as u8,
            },
            next,
        ))
    } else {
        None
    }
}

// A kind with its parameters.
pub fn read_kind(s: &[u8], at: usize) -> Option<(KindAt, usize)>
    ensures { KindReads (read_kind (drop at s.now)) s.now at result }
{
    let (n, next) = read_number(s, at)?;
    let kind = u8::try_from(n).ok()?;
    match kind {
        UNSIGNED | SIGNED | STRING | HEX => read_parameter(s, next, kind),
        DECIMAL => read_decimal(s, next),
        CURRENCY..=BOOLEAN => Some((
            KindAt {
                kind,
                size: 0,
                after: 0,
                sign: 0,
            },
            next,
        )),
        _ => None,
    }
}
