ghost use Rattle.std.specs.Prelude.{◌+◌, ◌≤◌, ◌≡◌, [], ◌∷◌, ◌++◌, length};
ghost use Rattle.packed.specs.Packed.{part};
ghost use Rattle.packed.specs.code.Written.{Wrote};
ghost use Rattle.replies.specs.Capacities.{hash_text_capacity};
ghost use Rattle.hashing.specs.HashText.{event_text};
ghost use Rattle.hashing.specs.code.HashIndex.{Hashable};

use crate::gather::gather;
use crate::objects::write_objects;
use event::read::EventIndex;
use ontology::types::TypeIndex;
use packed::write::{copy, copy_part};

// A part of some bytes, and byte 0A.
fn write_line(s: &[u8], from: usize, to: usize, out: &mut [u8], at: usize) -> usize
    requires { (from ≤ to) × (to ≤ length s.now) × (at + length (part s.now from to ++ (10 ∷ [])) ≤ length out.old) }
    ensures { Wrote out.old at (part s.now from to ++ (10 ∷ [])) out.new result }
{
    let after_part = copy_part(s, from, to, out, at);
    copy(b"\n", out, after_part)
}

// Writes the hash text at the front of `out`.
pub fn write_hash_text(
    table: &[u8],
    event: &[u8],
    t: TypeIndex,
    properties: &[usize],
    e: EventIndex,
    sets: &[usize],
    out: &mut [u8],
) -> usize
    requires { Hashable table.now event.now t properties.now e sets.now × (hash_text_capacity ≤ length out.old)
        × (length properties.now ≡ 96) × (length sets.now ≡ 96) }
    ensures { (h : Hashable table.now event.now t properties.now e sets.now)
        → Wrote out.old 0 (event_text h.type h.event) out.new result }
{
    let mut objects = [0usize; 128];
    let count = gather(table, event, t.count, properties, sets, &mut objects);
    let head = e.head;
    let source = head.source;
    let after_source = write_line(event, source.start, source.end, out, 0);
    let after_name = write_line(table, t.start, t.end, out, after_source);
    write_objects(table, event, &objects, count, out, after_name)
}
