// The lines of the report.
ghost use Rattle.std.specs.Prelude.{◌+◌, ◌*◌, ◌≤◌, ◌<◌, ◌≡◌, [], ◌∷◌, length};
ghost use Rattle.packed.specs.Packed.{part};
ghost use Rattle.packed.specs.code.Written.{Wrote};
ghost use Rattle.replies.specs.Replies.{finding_of};
ghost use Rattle.ontology.specs.Table.{name_at};
ghost use Rattle.report.specs.Report.{hex_digit, hex_of, value_line, value_lines, object_lines, hashed_lines};
ghost use Rattle.report.specs.Report.{conflict_line, overfull_line, finding_line, refused_line};
ghost use Rattle.report.specs.code.ReportIndex.{PlaceNamed, FindingNamed, ValuesRoom, ObjectsRoom, LinesRoom};

use event::read::EventIndex;
use event::sets::{SetAt, set_at};
use ontology::properties::{PropertyAt, property_at};
use packed::read::{TextAt, read_text};
use packed::write::{copy, copy_part};
use replies::reply::Finding;
use values::numerals::write_decimal;
use values::versions::EventVersion;

fn hex_digit(n: u8) -> u8
    requires { n < 16 }
    ensures { result ≡ hex_digit n }
{
    if n < 10 { b'0' + n } else { b'a' + (n - 10) }
}

// Two digits a byte.
pub fn write_hex(s: &[u8], out: &mut [u8], at: usize) -> usize
    requires { at + 2 * length s.now ≤ length out.old }
    ensures { Wrote out.old at (hex_of s.now) out.new result }
{
    for (i, b) in s.iter().enumerate() {
        out[at + 2 * i] = hex_digit(*b / 16);
        out[at + 2 * i + 1] = hex_digit(*b % 16);
    }
    at + 2 * s.len()
}

// The end of a line.
fn write_end(out: &mut [u8], at: usize) -> usize
    requires { at + 1 ≤ length out.old }
    ensures { Wrote out.old at (10 ∷ []) out.new result }
{
    copy(b"\n", out, at)
}

// `refused 7 1`: the number and the position.
pub fn write_refused(number: u8, position: usize, out: &mut [u8]) -> usize
    requires { length (refused_line number position) ≤ length out.old }
    ensures { Wrote out.old 0 (refused_line number position) out.new result }
{
    let after_word = copy(b"refused ", out, 0);
    let after_number = write_decimal(number as u64, out, after_word);
    let after_space = copy(b" ", out, after_number);
    let after_position = write_decimal(position as u64, out, after_space);
    write_end(out, after_position)
}

// The name of a property.
fn write_name(table: &[u8], p: PropertyAt, out: &mut [u8], at: usize) -> usize
    requires { (p.start ≤ p.end) × (p.end ≤ length table.now) × (at + length (part table.now p.start p.end) ≤ length out.old) }
    ensures { Wrote out.old at (part table.now p.start p.end) out.new result }
{
    let start = p.start;
    let end = p.end;
    copy_part(table, start, end, out, at)
}

// The name of the property at a place.
fn write_named(table: &[u8], properties: &[usize], place: usize, out: &mut [u8], at: usize) -> usize
    requires { (length properties.now ≡ 96)
        × (p : PlaceNamed table.now properties.now place) × (at + length (name_at p.type place) ≤ length out.old) }
    ensures { (p : PlaceNamed table.now properties.now place)
        → Wrote out.old at (name_at p.type place) out.new result }
{
    write_name(table, property_at(properties, place), out, at)
}

// `conflict 1 state`: the version and the property.
fn write_conflict(
    table: &[u8],
    properties: &[usize],
    version: EventVersion,
    place: usize,
    out: &mut [u8],
) -> usize
    requires { (length properties.now ≡ 96)
        × (p : PlaceNamed table.now properties.now place) × (length (conflict_line p.type version.0 place) ≤ length out.old) }
    ensures { (p : PlaceNamed table.now properties.now place)
        → Wrote out.old 0 (conflict_line p.type version.0 place) out.new result }
{
    let after_word = copy(b"conflict ", out, 0);
    let after_version = write_decimal(version.0, out, after_word);
    let after_space = copy(b" ", out, after_version);
    let after_name = write_named(table, properties, place, out, after_space);
    write_end(out, after_name)
}

// `overfull serial`: the property.
fn write_overfull(table: &[u8], properties: &[usize], place: usize, out: &mut [u8]) -> usize
    requires { (length properties.now ≡ 96)
        × (p : PlaceNamed table.now properties.now place) × (length (overfull_line p.type place) ≤ length out.old) }
    ensures { (p : PlaceNamed table.now properties.now place)
        → Wrote out.old 0 (overfull_line p.type place) out.new result }
{
    let after_word = copy(b"overfull ", out, 0);
    let after_name = write_named(table, properties, place, out, after_word);
    write_end(out, after_name)
}

// The line of what opening finds in place of a merged event.
pub fn write_finding(table: &[u8], properties: &[usize], f: Finding, out: &mut [u8]) -> usize
    requires { (length properties.now ≡ 96)
        × (p : FindingNamed table.now properties.now f) × (length (finding_line p.type (finding_of f)) ≤ length out.old) }
    ensures { (p : FindingNamed table.now properties.now f)
        → Wrote out.old 0 (finding_line p.type (finding_of f)) out.new result }
{
    match f {
        Finding::Conflict(version, place) => write_conflict(table, properties, version, place, out),
        Finding::Overfull(place) => write_overfull(table, properties, place, out),
    }
}

// `addr:h1`: the line of a value, which stands in the event from `start` up to `end`.
fn write_value(
    table: &[u8],
    p: PropertyAt,
    event: &[u8],
    start: usize,
    end: usize,
    out: &mut [u8],
    at: usize,
) -> usize
    requires { (p.start ≤ p.end) × (p.end ≤ length table.now) × (start ≤ end) × (end ≤ length event.now)
        × (at + length (value_line (part table.now p.start p.end) (part event.now start end)) ≤ length out.old) }
    ensures { Wrote out.old at
        (value_line (part table.now p.start p.end) (part event.now start end)) out.new result }
{
    let after_name = write_name(table, p, out, at);
    let after_colon = copy(b":", out, after_name);
    let after_value = copy_part(event, start, end, out, after_colon);
    write_end(out, after_value)
}

// The lines of a property's values.
fn write_values(
    table: &[u8],
    p: PropertyAt,
    event: &[u8],
    x: SetAt,
    out: &mut [u8],
    at: usize,
) -> usize
    requires { ValuesRoom table.now p event.now x at (length out.old) }
    ensures { (v : ValuesRoom table.now p event.now x at (length out.old))
        → Wrote out.old at (value_lines v.property.name v.values) out.new result }
{
    let mut next = at;
    let mut from = x.start;
    for _ in 0..x.count {
        let Some(TextAt { start, end }) = read_text(event, from) else {
            return next;
        };
        next = write_value(table, p, event, start, end, out, next);
        from = end;
    }
    next
}

// The lines of all objects, by place and then by value.
fn write_objects(
    table: &[u8],
    count: usize,
    properties: &[usize],
    event: &[u8],
    sets: &[usize],
    out: &mut [u8],
    at: usize,
) -> usize
    requires { (length properties.now ≡ 96) × (length sets.now ≡ 96)
        × ObjectsRoom table.now count properties.now event.now sets.now at (length out.old) }
    ensures { (o : ObjectsRoom table.now count properties.now event.now sets.now at
        (length out.old))
        → Wrote out.old at (object_lines o.properties o.sets) out.new result }
{
    let mut next = at;
    for k in 0..count {
        let p = property_at(properties, k);
        next = write_values(table, p, event, set_at(sets, k), out, next);
    }
    next
}

// The lines of a merged event, whose hash is given.
pub fn write_merged(
    table: &[u8],
    count: usize,
    properties: &[usize],
    event: &[u8],
    e: EventIndex,
    sets: &[usize],
    hash: &[u8],
    out: &mut [u8],
) -> usize
    requires { (length properties.now ≡ 96) × (length sets.now ≡ 96)
        × LinesRoom table.now count properties.now event.now e sets.now hash.now (length out.old) }
    ensures { (l : LinesRoom table.now count properties.now event.now e sets.now hash.now
        (length out.old))
        → Wrote out.old 0 (hashed_lines l.type l.event hash.now) out.new result }
{
    let after_merged = copy(b"merged ", out, 0);
    let objects = e.objects;
    let after_count = write_decimal(objects as u64, out, after_merged);
    let after_line = write_end(out, after_count);
    let after_objects = write_objects(table, count, properties, event, sets, out, after_line);
    let after_word = copy(b"hash ", out, after_objects);
    let after_hash = write_hex(hash, out, after_word);
    write_end(out, after_hash)
}
