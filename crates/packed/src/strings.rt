ghost use Rattle.std.specs.Prelude.{◌<◌, ◌≡◌, true, false, length, get_or, set};
ghost use Rattle.model.specs.Order.{texts, pick};
ghost use Rattle.packed.specs.code.Comparison.{ordering};
ghost use Rattle.packed.specs.code.Strings.{string_of, StringFits, string_in, strings_in, StringsFit, Inserted};

use std::cmp::Ordering;

// Where a string's first part stands in one slice, and its second part, after a colon, in another. A plain string is one whose first part is empty: all
// such strings have their colon in front, and are in the order of their second parts. A string is never put together in memory to be compared.
#[derive(Clone, Copy)]
pub struct StringAt {
    pub first: usize,
    pub colon: usize,
    pub second: usize,
    pub end: usize,
}

// Strings are lent as 128 numbers, four for each of 32 places.
pub fn string_at(strings: &[usize], k: usize) -> StringAt
    requires { (length strings.now ≡ 128) × (k < 32) }
    ensures { result ≡ string_in strings.now k }
{
    StringAt {
        first: strings[4 * k],
        colon: strings[4 * k + 1],
        second: strings[4 * k + 2],
        end: strings[4 * k + 3],
    }
}

fn put_string(strings: &mut [usize], k: usize, x: StringAt)
    requires { (length strings.old ≡ 128) × (k < 32) }
    ensures { strings_in strings.new ≡ set (strings_in strings.old) k x }
{
    strings[4 * k] = x.first;
    strings[4 * k + 1] = x.colon;
    strings[4 * k + 2] = x.second;
    strings[4 * k + 3] = x.end;
}

fn string_size(a: &[u8], b: &[u8], x: StringAt) -> usize
    requires { StringFits a.now b.now x }
    ensures { result ≡ length (string_of a.now b.now x) }
{
    x.colon - x.first + 1 + (x.end - x.second)
}

// Byte `i` of a string.
fn string_byte(a: &[u8], b: &[u8], x: StringAt, i: usize) -> u8
    requires { StringFits a.now b.now x × (i < length (string_of a.now b.now x)) }
    ensures { result ≡ get_or (string_of a.now b.now x) i 0 }
{
    let n = x.colon - x.first;
    if i < n {
        a[x.first + i]
    } else if i == n {
        b':'
    } else {
        b[x.second + (i - n - 1)]
    }
}

// Compares two strings, where they stand.
fn compare_strings(a: &[u8], b: &[u8], x: StringAt, y: StringAt) -> Ordering
    requires { StringFits a.now b.now x × StringFits a.now b.now y }
    ensures { ordering result ≡ texts.cmp (string_of a.now b.now x) (string_of a.now b.now y) }
{
    let n = string_size(a, b, x);
    let m = string_size(a, b, y);
    for i in 0..n.min(m) {
        let p = string_byte(a, b, x, i);
        let q = string_byte(a, b, y, i);
        if p != q {
            return p.cmp(&q);
        }
    }
    n.cmp(&m)
}

fn is_after(a: &[u8], b: &[u8], x: StringAt, y: StringAt) -> bool
    requires { StringFits a.now b.now x × StringFits a.now b.now y }
    ensures { result ≡ pick (texts.cmp (string_of a.now b.now x) (string_of a.now b.now y)) false false true }
{
    compare_strings(a, b, x, y).is_gt()
}

// The first `count` places have strings, sorted. Strings come nearly sorted, so the place of the one to insert is looked for from the end; the strings after
// it move up on the way.
pub fn insert_string(a: &[u8], b: &[u8], strings: &mut [usize], count: usize, x: StringAt)
    requires { StringsFit a.now b.now (strings_in strings.old) count × StringFits a.now b.now x × (count < 32)
        × (length strings.old ≡ 128) }
    ensures { Inserted a.now b.now (strings_in strings.old) count x (strings_in strings.new) }
{
    for k in (0..count).rev() {
        let y = string_at(strings, k);
        if is_after(a, b, x, y) {
            put_string(strings, k + 1, x);
            return;
        }
        put_string(strings, k + 1, y);
    }
    put_string(strings, 0, x);
}
