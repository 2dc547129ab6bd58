ghost use Rattle.std.specs.Prelude.{ℕ, ◌≤◌, ◌<◌, ◌≡◌, true, length, drop, get_or};
ghost use mathlib.Core.List.{List, [], map, flatten};
ghost use Rattle.model.specs.Order.{Text};
ghost use Rattle.packed.specs.Packed.{text, part};
ghost use Rattle.packed.specs.code.Comparison.{precedes};
ghost use Rattle.event.specs.EventLayout.{read_set, read_place, read_sets};
ghost use Rattle.event.specs.code.EventIndex.{SetIs, set_in, Promised, SetReads, SetsReads};

use packed::order::is_before;
use packed::read::{TextAt, part_of, read_number, read_text};

// Where the values of a place stand: their texts, one after the other, without the count. A place without objects has an empty stretch.
#[derive(Clone, Copy)]
pub struct SetAt {
    pub start: usize,
    pub end: usize,
    pub count: usize,
}

// The position after the sets of all places, and how many objects they have together.
#[derive(Clone, Copy)]
pub struct SetsRead {
    pub next: usize,
    pub objects: usize,
}

// Whether a value comes after the one before it. Of what is known to be a set it does, and is not compared.
fn comes_after(s: &[u8], last: TextAt, value: TextAt, known: bool) -> bool
    requires within { (last.start ≤ last.end) × (last.end ≤ length s.now) × (value.start ≤ value.end) × (value.end ≤ length s.now) }
    requires rising { known ≡ true → precedes (part s.now last.start last.end) (part s.now value.start value.end) ≡ true }
    ensures { result ≡ precedes (part s.now last.start last.end) (part s.now value.start value.end) }
{
    if known {
        return true;
    }
    is_before(s, last.start, last.end, value.start, value.end)
}

// A count of at least 1, and as many rising values. Each value is compared with the one before it where they stand.
fn read_set(s: &[u8], at: usize, known: bool) -> Option<SetAt>
    requires { Promised known (read_set (drop at s.now)) }
    ensures { SetReads (read_set (drop at s.now)) s.now result }
{
    let (count, after_count) = read_number(s, at)?;
    if count == 0 {
        return None;
    }
    let mut last = read_text(s, after_count)?;
    for _ in 1..count {
        let value = read_text(s, last.end)?;
        if !comes_after(s, last, value, known) {
            return None;
        }
        last = value;
    }
    Some(SetAt {
        start: after_count,
        end: last.end,
        count: count as usize,
    })
}

// The set of a place whose bit of the presence number is `bit`.
fn read_place(s: &[u8], at: usize, bit: u64, known: bool) -> Option<SetAt>
    requires { (at ≤ length s.now) × Promised known (read_place bit (drop at s.now)) }
    ensures { SetReads (read_place bit (drop at s.now)) s.now result }
{
    if bit == 1 {
        read_set(s, at, known)
    } else {
        Some(SetAt {
            start: at,
            end: at,
            count: 0,
        })
    }
}

// The sets of a presence number, three numbers for each place. Each value takes a byte at least, so there are fewer objects than bytes. Where no bit is left,
// the places that follow have no objects.
pub fn read_sets(
    s: &[u8],
    at: usize,
    presence: u64,
    known: bool,
    sets: &mut [usize],
) -> Option<SetsRead>
    requires { (at ≤ length s.now) × (length sets.old ≡ 96) × Promised known (read_sets 32 presence (drop at s.now)) }
    ensures { SetsReads (read_sets 32 presence (drop at s.now)) s.now sets.new result }
{
    let mut bits = presence;
    let mut next = at;
    let mut objects = 0;
    let mut k = 0;
    while k < 32 && 0 < bits {
        let x = read_place(s, next, bits % 2, known)?;
        sets[3 * k] = x.start;
        sets[3 * k + 1] = x.end;
        sets[3 * k + 2] = x.count;
        objects += x.count;
        next = x.end;
        bits /= 2;
        k += 1;
    }
    sets[3 * k..].fill(0);
    Some(SetsRead { next, objects })
}

// The sets of all places are lent as 96 numbers, three for each: where its values start and end, and how many they are.
pub fn set_at(sets: &[usize], place: usize) -> SetAt
    requires { (length sets.now ≡ 96) × (place < 32) }
    ensures { result ≡ set_in sets.now place }
{
    SetAt {
        start: sets[3 * place],
        end: sets[3 * place + 1],
        count: sets[3 * place + 2],
    }
}

// The value at an index among texts that stand one after the other, or nothing.
pub fn value_in(s: &[u8], index: usize) -> &[u8]
    ensures { (vs : List Text) → s.now ≡ flatten (map text vs) → result.now ≡ get_or vs index [] }
{
    let mut at = 0;
    for _ in 0..index {
        let Some(TextAt { end, .. }) = read_text(s, at) else {
            return &s[0..0];
        };
        at = end;
    }
    let Some(TextAt { start, end }) = read_text(s, at) else {
        return &s[0..0];
    };
    &s[start..end]
}

// A place's values where they stand. The index is asked for nothing: what it has no values for is an empty part.
pub fn set_part(s: &[u8], x: SetAt) -> &[u8]
    ensures { (vs : List Text) → SetIs s.now vs x → result.now ≡ flatten (map text vs) }
{
    part_of(s, x.start, x.end)
}
