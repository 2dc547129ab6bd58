// An event added to a dossier, which is known by its measures: the snapshots of other versions are copied as they stand, and at most one of them is read.
ghost use Rattle.std.specs.Prelude.{ℕ, ◌+◌, ◌≤◌, ◌≡◌, false, cond, List, map, length, drop, leb, Ok};
ghost use Rattle.model.specs.Rule.{Snapshot, join_snapshots, sizes};
ghost use Rattle.model.specs.Limits.{fits};
ghost use Rattle.model.specs.Opening.{held};
ghost use Rattle.packed.specs.Parse.{fail, got};
ghost use Rattle.packed.specs.code.Written.{Wrote};
ghost use Rattle.replies.specs.Capacities.{dossier_capacity};
ghost use Rattle.replies.specs.ChosenLimits.{limits_of};
ghost use Rattle.replies.specs.Replies.{replies};
ghost use Rattle.ontology.specs.Table.{EventType, is_versioned};
ghost use Rattle.ontology.specs.code.TypeIndex.{PropertiesAre};
ghost use Rattle.event.specs.Event.{type_view, version_of};
ghost use Rattle.event.specs.code.EventIndex.{SetsAre};
ghost use Rattle.event.specs.declared.head.HeadAt.{HeadAt};
ghost use Rattle.dossier.specs.DossierBody.{read_snapshot, snapshot_bytes};
ghost use Rattle.combining.specs.CombineCall.{combined, combine_call};
ghost use Rattle.combining.specs.code.CombineIndex.{Meet};
ghost use Rattle.combining.specs.code.AddIndex.{bytes_of, Measured, AddableUnder, Adding, AddingIn, Met, MetRoom, new_snapshot, NewRoom, WithRoom};
ghost use Rattle.combining.specs.code.AddIndex.{AddedInside, added_bytes, AddedRoom};

use crate::agreed::write_agreed;
use crate::check::{version_of, write_alone};
use crate::joined::write_joined;
use crate::limits::{objects_fit, parents_fit};
use crate::measures::{Measure, Place, place_of, put_snapshot};
use crate::write::write_heads;
use dossier::head::read_dossier_head;
use dossier::snapshots::read_snapshot;
use event::head::HeadAt;
use event::read::{EventCounts, EventIndex, read_event};
use ontology::types::TypeIndex;
use packed::order::same;
use packed::read::part_of;
use packed::write::{copy, copy_part, write_number};
use replies::limits::Limits;
use replies::reply::Refusal;
use values::versions::EventVersion;

// Where the snapshots that were written end, and how many bytes the one of the event's version has.
#[derive(Clone, Copy)]
struct SnapshotWritten {
    next: usize,
    size: usize,
}

// Question 8 of the objects of an unversioned dossier, whose only snapshot stands at `at`, and of an event.
fn objects_added(
    sofar: &[u8],
    at: usize,
    event: &[u8],
    e: EventIndex,
    sets: &[usize],
    most: usize,
    t: TypeIndex,
    properties: &[usize],
) -> bool
    requires count_bound { (t.count ≤ 32) × (length sets.now ≡ 96) × (length properties.now ≡ 96) }
    requires at_in_bounds { (at ≤ length sofar.now) × (read_snapshot (drop at sofar.now) ≡ fail → ⊥) }
    ensures { (u : List ℕ) (ty : EventType) (left right : Snapshot) (rest : List ℕ)
        → PropertiesAre u ty.properties t.count properties.now → is_versioned ty ≡ false → Meet ty left right
        → read_snapshot (drop at sofar.now) ≡ got left rest → e.objects ≡ sizes right.cells
        → SetsAre event.now (map held right.cells) sets.now
        → result ≡ leb (sizes (join_snapshots (type_view ty) left right).cells) most }
{
    let mut row = [0usize; 96];
    let Some((x, _)) = read_snapshot(sofar, at, true, &mut row) else {
        return false;
    };
    objects_fit(
        sofar, &row, x.objects, event, sets, e.objects, most, t.count, properties,
    )
}

// Question 8 of a dossier and an event.
fn added_fits(
    limits: Limits,
    sofar: &[u8],
    x: HeadAt,
    body: usize,
    measures: &[usize],
    p: Place,
    event: &[u8],
    e: EventIndex,
    sets: &[usize],
    t: TypeIndex,
    properties: &[usize],
) -> bool
    requires sets_len { (length sets.now ≡ 96) × (length properties.now ≡ 96) × (length measures.now ≡ 17) }
    requires adding_in { AddingIn sofar.now measures.now event.now e sets.now x body p t properties.now }
    ensures { (table : List ℕ)
        (h : Adding table sofar.now measures.now event.now e sets.now x body p t properties.now)
        → h.added.both.limits ≡ limits_of limits → result ≡ fits (limits_of limits) (type_view h.added.both.left.type)
        (combined h.added.both.left h.added.both.right) }
{
    let y = e.head;
    if !parents_fit(sofar, x.parents, event, y.parents, limits.parents) {
        return false;
    }
    if !p.meets {
        return measures[0] < limits.versions;
    }
    0 < t.mark || objects_added(sofar, body, event, e, sets, limits.objects, t, properties)
}

// Writes the event's snapshot together with the one of its version, which stands in `sofar` from `start` up to `end`. It is made apart first, since the two are
// mostly the same, and the other one need not be read then.
fn write_met<'a>(
    version: EventVersion,
    sofar: &'a [u8],
    start: usize,
    end: usize,
    event: &'a [u8],
    e: EventIndex,
    sets: &[usize],
    t: TypeIndex,
    properties: &[usize],
    lone: &mut [u8],
    out: &mut [u8],
    at: usize,
) -> usize
    requires { (length sets.now ≡ 96) × (length properties.now ≡ 96)
        × MetRoom version sofar.now start end event.now e sets.now t properties.now (length lone.old) at (length out.old) }
    ensures { (h : Met version sofar.now start end event.now e sets.now t properties.now)
        → Wrote out.old at (snapshot_bytes (join_snapshots (type_view h.type) h.left h.right)) out.new result }
{
    let met = part_of(sofar, start, end);
    let size = write_alone(event, e, sets, version, lone, 0);
    if same(met, &lone[..size]) {
        return copy(met, out, at);
    }
    let mut row = [0usize; 96];
    let Some((x, _)) = read_snapshot(sofar, start, true, &mut row) else {
        return at;
    };
    if 0 < t.mark {
        return write_agreed(
            version, sofar, &row, x.differ, event, sets, 0, t.count, out, at,
        );
    }
    write_joined(sofar, &row, event, sets, t.count, properties, out, at)
}

// Writes the snapshot that the dossier has of the event's version then.
fn write_new<'a>(
    sofar: &'a [u8],
    body: usize,
    p: Place,
    event: &'a [u8],
    e: EventIndex,
    sets: &[usize],
    version: EventVersion,
    t: TypeIndex,
    properties: &[usize],
    lone: &mut [u8],
    out: &mut [u8],
    at: usize,
) -> usize
    requires { (length sets.now ≡ 96) × (length properties.now ≡ 96)
        × NewRoom sofar.now event.now e sets.now body p version t properties.now (length lone.old) at (length out.old) }
    ensures { (table : List ℕ) (m : List ℕ) (x : HeadAt)
        (h : Adding table sofar.now m event.now e sets.now x body p t properties.now)
        → version.0 ≡ version_of h.added.new.event.type h.added.new.event.event
        → Wrote out.old at (snapshot_bytes (new_snapshot h)) out.new result }
{
    if !p.meets {
        return write_alone(event, e, sets, version, out, at);
    }
    let start = body + p.before;
    let end = start + p.size;
    write_met(
        version, sofar, start, end, event, e, sets, t, properties, lone, out, at,
    )
}

// Writes the snapshots of the dossier with that one among them.
fn write_with<'a>(
    sofar: &'a [u8],
    body: usize,
    p: Place,
    event: &'a [u8],
    e: EventIndex,
    sets: &[usize],
    version: EventVersion,
    t: TypeIndex,
    properties: &[usize],
    lone: &mut [u8],
    out: &mut [u8],
    at: usize,
) -> SnapshotWritten
    requires { (length sets.now ≡ 96) × (length properties.now ≡ 96)
        × WithRoom sofar.now event.now e sets.now body p version t properties.now (length lone.old) at (length out.old) }
    ensures by_index { (table : List ℕ) (m : List ℕ) (x : HeadAt)
        (h : Adding table sofar.now m event.now e sets.now x body p t properties.now)
        → version.0 ≡ version_of h.added.new.event.type h.added.new.event.event
        → Wrote out.old at (bytes_of (combined h.added.both.left h.added.both.right).snapshots) out.new result.next }
    ensures size { (table : List ℕ) (m : List ℕ) (x : HeadAt)
        (h : Adding table sofar.now m event.now e sets.now x body p t properties.now)
        → version.0 ≡ version_of h.added.new.event.type h.added.new.event.event
        → length (snapshot_bytes (new_snapshot h)) ≡ result.size }
{
    let start = body + p.before;
    let end = start + p.size;
    let from = copy_part(sofar, body, start, out, at);
    let to = write_new(
        sofar, body, p, event, e, sets, version, t, properties, lone, out, from,
    );
    let size = to - from;
    SnapshotWritten {
        next: copy_part(sofar, end, sofar.len(), out, to),
        size,
    }
}

// How many snapshots there are then.
fn count_with(count: usize, p: Place) -> usize
    requires { count ≤ 8 }
    ensures { result ≡ cond p.meets count (count + 1) }
{
    if p.meets { count } else { count + 1 }
}

// Writes the dossier with the event at the front of `out`, and measures it.
fn write_added<'a>(
    sofar: &'a [u8],
    x: HeadAt,
    body: usize,
    measures: &mut [usize],
    p: Place,
    event: &'a [u8],
    e: EventIndex,
    sets: &[usize],
    version: EventVersion,
    t: TypeIndex,
    properties: &[usize],
    lone: &mut [u8],
    out: &mut [u8],
) -> usize
    requires { (length sets.now ≡ 96) × (length properties.now ≡ 96) × (length measures.old ≡ 17)
        × AddedRoom sofar.now measures.old event.now e sets.now x body p version t properties.now (length lone.old) (length out.old) }
    ensures by_index { (table : List ℕ)
        (h : Adding table sofar.now measures.old event.now e sets.now x body p t properties.now)
        → version.0 ≡ version_of h.added.new.event.type h.added.new.event.event → AddedInside h
        → Wrote out.old 0 (added_bytes h) out.new result }
    ensures measured { (table : List ℕ)
        (h : Adding table sofar.now measures.old event.now e sets.now x body p t properties.now)
        → version.0 ≡ version_of h.added.new.event.type h.added.new.event.event
        → Measured (combined h.added.both.left h.added.both.right).snapshots measures.new }
{
    let y = e.head;
    let after_head = write_heads(sofar, x, event, y, out);
    let at = write_number(out, after_head, count_with(measures[0], p) as u64);
    let w = write_with(
        sofar, body, p, event, e, sets, version, t, properties, lone, out, at,
    );
    put_snapshot(
        measures,
        p,
        Measure {
            version,
            size: w.size,
        },
    );
    w.next
}

// An event that is known to be accepted, added to a dossier of which questions 2 to 7 are known to be answered yes, and which is known by its measures; they
// are those of the new dossier then.
pub fn add_event<'a>(
    limits: Limits,
    table: &[u8],
    sofar: &'a [u8],
    measures: &mut [usize],
    event: &'a [u8],
    t: TypeIndex,
    properties: &[usize],
    lone: &mut [u8],
    out: &mut [u8],
) -> Result<usize, Refusal>
    requires addable_under { AddableUnder (limits_of limits) table.now sofar.now measures.old event.now t properties.now
        × (length properties.now ≡ 96) × (length measures.old ≡ 17) }
    requires dossier_capacity_in_bounds { (dossier_capacity ≤ length lone.old) × (dossier_capacity ≤ length out.old) }
    ensures out_after { (h : AddableUnder (limits_of limits) table.now sofar.now measures.old event.now t properties.now)
        → replies result out.new
        ≡ combine_call (limits_of limits) table.now sofar.now h.added.lone out.old }
    ensures measured { (h : AddableUnder (limits_of limits) table.now sofar.now measures.old event.now t properties.now)
        (n : ℕ) → result ≡ Ok n → Measured (combined h.added.both.left h.added.both.right).snapshots measures.new }
{
    let mut sets = [0usize; 96];
    let e = read_event(event, EventCounts::Narrow, &mut sets).unwrap();
    let version = version_of(event, t, &sets);
    let (x, after_head) = read_dossier_head(sofar, limits).unwrap();
    // the count of snapshots is one byte
    let body = after_head + 1;
    let p = place_of(sofar, measures, version);
    if !added_fits(
        limits, sofar, x, body, measures, p, event, e, &sets, t, properties,
    ) {
        return Err(Refusal::OverLimits);
    }
    Ok(write_added(
        sofar, x, body, measures, p, event, e, &sets, version, t, properties, lone, out,
    ))
}
