ghost use Rattle.std.specs.Prelude.{◌≡◌, true, length};
ghost use mathlib.Core.List.{List, [], map, flatten};
ghost use Rattle.model.specs.Order.{Text, texts, rising};
ghost use Rattle.model.specs.Sets.{union};
ghost use Rattle.packed.specs.Packed.{text};
ghost use Rattle.packed.specs.code.Written.{Wrote};
ghost use Rattle.unions.specs.code.Runs.{run, Run, Hashes, Steps, Room, TextsRoom, HashesRoom, WroteUnion};

use crate::heads::{Form, count_rest, head_at};
use packed::order::compare_parts;
use packed::write::copy_part;
use std::cmp::Ordering;

// Where a union that was written ends, and how many values both sides have.
#[derive(Clone, Copy)]
pub struct Joined {
    pub next: usize,
    pub shared: usize,
}

// Where both sides go on after the next value of a union; none where one side alone is left. A value that stands first on both sides is passed on both.
fn next_of(form: Form, a: &[u8], i: usize, b: &[u8], j: usize) -> Option<(usize, usize)>
    ensures { Steps form a.now i b.now j result }
{
    let x = head_at(form, a, i)?;
    let y = head_at(form, b, j)?;
    match compare_parts(a, x.start, x.end, b, y.start, y.end) {
        Ordering::Less => Some((x.end, j)),
        Ordering::Equal => Some((x.end, y.end)),
        Ordering::Greater => Some((i, y.end)),
    }
}

// Each value takes a byte at least, so there are no more of them than bytes.
fn count_runs(form: Form, a: &[u8], b: &[u8]) -> usize
    ensures { (xs ys : List Text) → Run form a.now xs [] → Run form b.now ys [] → result ≡ length (union texts xs ys) }
{
    let mut i: usize = 0;
    let mut j: usize = 0;
    let mut n: usize = 0;
    while let Some((x, y)) = next_of(form, a, i, b, j) {
        i = x;
        j = y;
        n += 1;
    }
    n + count_rest(form, a, i) + count_rest(form, b, j)
}

pub fn count_union(a: &[u8], b: &[u8]) -> usize
    ensures { (xs ys : List Text) → a.now ≡ flatten (map text xs) → b.now ≡ flatten (map text ys)
        → rising texts xs ≡ true → rising texts ys ≡ true → result ≡ length (union texts xs ys) }
{
    count_runs(Form::Texts, a, b)
}

pub fn count_hash_union(a: &[u8], b: &[u8]) -> usize
    ensures { (xs ys : List Text) → a.now ≡ flatten xs → b.now ≡ flatten ys → Hashes xs → Hashes ys
        → rising texts xs ≡ true → rising texts ys ≡ true → result ≡ length (union texts xs ys) }
{
    count_runs(Form::Hashes, a, b)
}

// Where one side alone is left, it is copied as it stands. The step is written out here, since a call of its own costs a tenth of the time.
fn write_runs(form: Form, a: &[u8], b: &[u8], out: &mut [u8], at: usize) -> Joined
    requires { Room form a.now b.now at (length out.old) }
    ensures { (xs ys : List Text) → Run form a.now xs [] → Run form b.now ys []
        → WroteUnion out.old at (run form (union texts xs ys)) out.new xs ys result }
{
    let mut i: usize = 0;
    let mut j: usize = 0;
    let mut next = at;
    let mut shared: usize = 0;
    loop {
        let Some(x) = head_at(form, a, i) else {
            return Joined {
                next: copy_part(b, j, b.len(), out, next),
                shared,
            };
        };
        let Some(y) = head_at(form, b, j) else {
            return Joined {
                next: copy_part(a, i, a.len(), out, next),
                shared,
            };
        };
        match compare_parts(a, x.start, x.end, b, y.start, y.end) {
            Ordering::Less => {
                next = copy_part(a, i, x.end, out, next);
                i = x.end;
            }
            Ordering::Equal => {
                next = copy_part(a, i, x.end, out, next);
                i = x.end;
                j = y.end;
                shared += 1;
            }
            Ordering::Greater => {
                next = copy_part(b, j, y.end, out, next);
                j = y.end;
            }
        }
    }
}

// Each writer writes from position `at` on, and answers the position after what it wrote.
pub fn write_union(a: &[u8], b: &[u8], out: &mut [u8], at: usize) -> Joined
    requires { TextsRoom a.now b.now at (length out.old) }
    ensures { (xs ys : List Text) → a.now ≡ flatten (map text xs) → b.now ≡ flatten (map text ys)
        → rising texts xs ≡ true
        → rising texts ys ≡ true → WroteUnion out.old at (flatten (map text (union texts xs ys))) out.new xs ys result }
{
    write_runs(Form::Texts, a, b, out, at)
}

pub fn write_hash_union(a: &[u8], b: &[u8], out: &mut [u8], at: usize) -> usize
    requires { HashesRoom a.now b.now at (length out.old) }
    ensures { (xs ys : List Text) → a.now ≡ flatten xs → b.now ≡ flatten ys → Hashes xs → Hashes ys
        → rising texts xs ≡ true → rising texts ys ≡ true → Wrote out.old at (flatten (union texts xs ys)) out.new result }
{
    write_runs(Form::Hashes, a, b, out, at).next
}
