ghost use Rattle.std.specs.Prelude.{◌≤◌, ◌<◌, ◌≡◌, length};
ghost use mathlib.Core.List.{List, map, flatten};
ghost use Rattle.model.specs.Order.{Text, texts};
ghost use Rattle.model.specs.Sets.{canon};
ghost use Rattle.packed.specs.Packed.{text};
ghost use Rattle.packed.specs.code.Written.{Wrote};
ghost use Rattle.unions.specs.code.Merging.{SetRuns, RightLeast, Lesser, IsLeast, MergedRoom};

use crate::heads::{Form, head_at};
use packed::order::compare_parts;
use packed::read::TextAt;
use packed::write::copy_part;
use std::cmp::Ordering;

// The least of the values that stand first in some runs: the position where it stands in its run, and where its own bytes are.
#[derive(Clone, Copy)]
struct Least {
    start: usize,
    text: TextAt,
}

// The lesser of the least so far and the value that stands first in run j, which ends at `end`; `at` has where each run goes on, and `after` where each goes on
// when the least has been passed in every run in which it stands first.
fn lesser(
    s: &[u8],
    best: Option<Least>,
    at: &[usize; 8],
    j: usize,
    end: usize,
    after: &mut [usize; 8],
) -> Option<Least>
    requires j_bound { j < 8 }
    requires right_least { RightLeast s.now at.now best after.old }
    ensures { Lesser s.now best after.old at.now j end result after.new }
{
    let start = at[j];
    if end <= start {
        return best;
    }
    let Some(text) = head_at(Form::Texts, s, start) else {
        return best;
    };
    let first = Some(Least { start, text });
    let Some(least) = best else {
        after[j] = text.end;
        return first;
    };
    match compare_parts(s, text.start, text.end, s, least.text.start, least.text.end) {
        Ordering::Less => {
            *after = *at;
            after[j] = text.end;
            first
        }
        Ordering::Equal => {
            after[j] = text.end;
            best
        }
        Ordering::Greater => best,
    }
}

// The runs are n stretches of s; `at` has where each goes on, and `ends` where it ends.
fn least_head(
    s: &[u8],
    at: &[usize; 8],
    ends: &[usize; 8],
    n: usize,
    after: &mut [usize; 8],
) -> Option<Least>
    requires { n ≤ 8 }
    ensures { IsLeast s.now at.now ends.now n result after.new }
{
    let mut best = None;
    *after = *at;
    for j in 0..n {
        best = lesser(s, best, at, j, ends[j], after);
    }
    best
}

// The position after what was written, and how many values that is.
#[derive(Clone, Copy)]
pub struct Merged {
    pub next: usize,
    pub count: usize,
}

// Writes from position `at` on. Each turn takes one value: the least that stands first, out of every run in which it does.
pub fn write_merged(
    s: &[u8],
    starts: [usize; 8],
    ends: [usize; 8],
    n: usize,
    out: &mut [u8],
    at: usize,
) -> Merged
    requires { (n ≤ 8) × MergedRoom s.now starts ends n at (length out.old) }
    ensures writes { (xss : List (List Text)) → SetRuns s.now starts ends n xss
        → Wrote out.old at (flatten (map text (canon texts (flatten xss)))) out.new result.next }
    ensures counts { (xss : List (List Text)) → SetRuns s.now starts ends n xss
        → result.count ≡ length (canon texts (flatten xss)) }
{
    let mut left = starts;
    let mut after = [0usize; 8];
    let mut next = at;
    let mut count: usize = 0;
    while let Some(least) = least_head(s, &left, &ends, n, &mut after) {
        next = copy_part(s, least.start, least.text.end, out, next);
        left = after;
        count += 1;
    }
    Merged { next, count }
}
