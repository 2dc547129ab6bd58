ghost use Rattle.std.specs.Prelude.{ℕ, ◌≡◌, ◌&&◌, length, drop};
ghost use Rattle.packed.specs.Parse.{got};
ghost use mathlib.Core.List.{List, flatten};
ghost use Rattle.model.specs.Order.{Text, texts, equal};
ghost use Rattle.packed.specs.code.Written.{Wrote};
ghost use Rattle.event.specs.Head.{read_head, is_source, read_parents, Head, head_bytes};
ghost use Rattle.event.specs.code.EventIndex.{TextIs, HeadIs, ParentsReads, HeadReads, HashesAre, HeadRoom, HeadParts};

use crate::sets::SetAt;
use packed::order::{is_before, same};
use packed::read::{TextAt, part_of, read_number, read_text};
use packed::write::{copy, write_number, write_text};

// Type name, source and parents, with which an event and a dossier begin.
#[derive(Clone, Copy)]
pub struct HeadAt {
    pub name: TextAt,
    pub source: TextAt,
    pub parents: SetAt,
}

// 1 to 120 bytes from 21 to 7E hexadecimal.
fn is_source(v: &[u8]) -> bool
    ensures { result ≡ is_source v.now }
{
    matches!(v.len(), 1..=120) && v.iter().all(|b| matches!(b, 0x21..=0x7e))
}

// A count of at most `most`, and as many rising hashes of 20 bytes.
fn read_parents(s: &[u8], at: usize, most: usize) -> Option<SetAt>
    ensures { ParentsReads (read_parents most (drop at s.now)) s.now result }
{
    let (number, after_count) = read_number(s, at)?;
    let count = number as usize;
    if most < count {
        return None;
    }
    if count == 0 {
        return Some(SetAt {
            start: after_count,
            end: after_count,
            count,
        });
    }
    if s.len() - after_count < 20 {
        return None;
    }
    let mut from = after_count;
    let mut to = after_count + 20;
    for _ in 1..count {
        if s.len() - to < 20 {
            return None;
        }
        if !is_before(s, from, to, to, to + 20) {
            return None;
        }
        from = to;
        to += 20;
    }
    Some(SetAt {
        start: after_count,
        end: to,
        count,
    })
}

pub fn read_head(s: &[u8], most: usize) -> Option<HeadAt>
    ensures { HeadReads (read_head most s.now) s.now result }
{
    let name = read_text(s, 0)?;
    let source = read_text(s, name.end)?;
    if !is_source(&s[source.start..source.end]) {
        return None;
    }
    let parents = read_parents(s, source.end, most)?;
    Some(HeadAt {
        name,
        source,
        parents,
    })
}

// The type name that an event or a dossier begins with; the empty name, which no type has, where it cannot be read.
pub fn type_name(s: &[u8]) -> &[u8]
    ensures { (most : ℕ) (h : Head) (r : List ℕ) → read_head most s.now ≡ got h r → result.now ≡ h.type }
{
    match read_text(s, 0) {
        Some(name) => &s[name.start..name.end],
        None => &s[0..0],
    }
}

// A text's own bytes; nothing where the positions are not of these bytes.
pub fn text_part(s: &[u8], x: TextAt) -> &[u8]
    ensures { (v : Text) → TextIs s.now v x → result.now ≡ v }
{
    part_of(s, x.start, x.end)
}

// Whether two heads have the same type name and the same source.
pub fn heads_agree(a: &[u8], x: HeadAt, b: &[u8], y: HeadAt) -> bool
    ensures { (g h : Head) → HeadIs a.now g x → HeadIs b.now h y
        → result ≡ (equal texts g.type h.type && equal texts g.source h.source) }
{
    same(text_part(a, x.name), text_part(b, y.name))
        && same(text_part(a, x.source), text_part(b, y.source))
}

// The hashes of some parents where they stand; nothing where the positions are not of these bytes.
pub fn hashes_part(s: &[u8], x: SetAt) -> &[u8]
    ensures { (hs : List Text) → HashesAre s.now hs x → result.now ≡ flatten hs }
{
    part_of(s, x.start, x.end)
}

// Writes a head from position `at` on: the type name, the source, and the hashes of the parents, which stand one after the other.
pub fn write_head(name: &[u8], source: &[u8], hashes: &[u8], out: &mut [u8], at: usize) -> usize
    requires { HeadRoom name.now source.now hashes.now at (length out.old) }
    ensures { (h : Head) → HeadParts name.now source.now hashes.now h
        → Wrote out.old at (head_bytes h) out.new result }
{
    let after_name = write_text(name, out, at);
    let after_source = write_text(source, out, after_name);
    let after_count = write_number(out, after_source, (hashes.len() / 20) as u64);
    copy(hashes, out, after_count)
}
