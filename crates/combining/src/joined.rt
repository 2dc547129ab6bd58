ghost use Rattle.std.specs.Prelude.{◌≡◌, false, List, [], ◌∷◌, map, ℕ, ◌≤◌, length, take};
ghost use Rattle.model.specs.Order.{Text, texts};
ghost use Rattle.model.specs.Sets.{union};
ghost use Rattle.model.specs.Rule.{Snapshot, join_snapshots};
ghost use Rattle.model.specs.Opening.{held};
ghost use Rattle.packed.specs.code.Written.{Wrote};
ghost use Rattle.values.specs.Spaces.{Kind};
ghost use Rattle.values.specs.ValueOrder.{extreme_order};
ghost use Rattle.ontology.specs.Table.{EventType, is_versioned};
ghost use Rattle.ontology.specs.code.TypeIndex.{PropertiesAre, has_max};
ghost use Rattle.event.specs.Event.{type_view};
ghost use Rattle.event.specs.EventLayout.{set_bytes};
ghost use Rattle.event.specs.code.EventIndex.{SetIs, SetsAre};
ghost use Rattle.dossier.specs.DossierBody.{snapshot_bytes};
ghost use Rattle.combining.specs.code.CombineIndex.{Meet, JoinedRoom};
ghost use Rattle.combining.specs.code.JoinedIndex.{have_objects, PresentAre, NoObjectsFrom};
ghost use Rattle.combining.specs.code.JoinedIndex.{Extremes, joined_set, ValuesAre, ValuesRoom, PlaceIs, PlaceRoom};

use crate::limits::is_extreme_at;
use event::bits::number_of;
use event::sets::{SetAt, set_at, set_part, value_in};
use ontology::properties::{PropertyAt, is_max, property_at};
use packed::write::{write_number, write_text};
use unions::counted::write_before;
use unions::pair::write_union;
use values::spaces::choose;

// Whether one of two places has objects.
fn have_objects(x: SetAt, y: SetAt) -> bool
    ensures { result ≡ have_objects x y }
{
    0 < x.count || 0 < y.count
}

// The smaller or larger of the values of two places, or the one that is there.
fn chosen<'a>(p: PropertyAt, a: &'a [u8], x: SetAt, b: &'a [u8], y: SetAt) -> &'a [u8]
    ensures { (k : Kind) (xs ys : List Text) → SetIs a.now xs x → SetIs b.now ys y → Extremes k p.kind xs ys
        → result.now ∷ [] ≡ take 1 (union (extreme_order (has_max p) k) xs ys) }
{
    let v = value_in(set_part(a, x), 0);
    let w = value_in(set_part(b, y), 0);
    if x.count == 0 {
        return w;
    }
    if y.count == 0 {
        return v;
    }
    choose(p.kind, is_max(p), v, 0, v.len(), w, 0, w.len())
}

// Writes the union of two sets of m and n values, one of which is not empty: its count, which is known when the values are written, and these.
fn write_values(a: &[u8], m: usize, b: &[u8], n: usize, out: &mut [u8], at: usize) -> usize
    requires { ValuesRoom a.now m b.now n at (length out.old) }
    ensures { (xs ys : List Text) → ValuesAre a.now m b.now n xs ys
        → Wrote out.old at (set_bytes (union texts xs ys)) out.new result }
{
    let joined = write_union(a, b, out, at + 1);
    write_before(out, at, joined.next, (m + n - joined.shared) as u64)
}

// Writes the set of a place of two unversioned snapshots, one of which has objects there.
fn write_place<'a>(
    count: usize,
    properties: &[usize],
    k: usize,
    a: &'a [u8],
    x: SetAt,
    b: &'a [u8],
    y: SetAt,
    out: &mut [u8],
    at: usize,
) -> usize
    requires { (length properties.now ≡ 96) × PlaceRoom count properties.now k a.now x b.now y at (length out.old) }
    ensures { (h : PlaceIs count properties.now k a.now x b.now y)
        → Wrote out.old at (set_bytes (joined_set h.type k h.xs h.ys)) out.new result }
{
    if is_extreme_at(count, properties, k) {
        let after_count = write_number(out, at, 1);
        let p = property_at(properties, k);
        return write_text(chosen(p, a, x, b, y), out, after_count);
    }
    write_values(set_part(a, x), x.count, set_part(b, y), y.count, out, at)
}

// The places at which one of two unversioned snapshots has objects, of a type that has `count` properties. Neither has any at a place past these.
fn joined_places(left: &[usize], right: &[usize], count: usize) -> [bool; 32]
    requires { (count ≤ 32) × (length left.now ≡ 96) × (length right.now ≡ 96) }
    ensures { NoObjectsFrom count left.now right.now → PresentAre left.now right.now result }
{
    let mut present = [false; 32];
    for k in 0..count {
        present[k] = have_objects(set_at(left, k), set_at(right, k));
    }
    present
}

// Writes what two unversioned snapshots are together.
pub fn write_joined<'a>(
    a: &'a [u8],
    x: &[usize],
    b: &'a [u8],
    y: &[usize],
    count: usize,
    properties: &[usize],
    out: &mut [u8],
    at: usize,
) -> usize
    requires { (length x.now ≡ 96) × (length y.now ≡ 96) × (length properties.now ≡ 96)
        × JoinedRoom a.now x.now b.now y.now count properties.now at (length out.old) }
    ensures { (u : List ℕ) (ty : EventType) (left right : Snapshot)
        → PropertiesAre u ty.properties count properties.now → is_versioned ty ≡ false → Meet ty left right
        → SetsAre a.now (map held left.cells) x.now → SetsAre b.now (map held right.cells) y.now
        → Wrote out.old at (snapshot_bytes (join_snapshots (type_view ty) left right)) out.new result }
{
    let present = joined_places(x, y, count);
    let after_version = write_number(out, at, 0);
    let after_presence = write_number(out, after_version, number_of(present));
    let mut next = write_number(out, after_presence, 0);
    for k in 0..count {
        if present[k] {
            let v = set_at(x, k);
            let w = set_at(y, k);
            next = write_place(count, properties, k, a, v, b, w, out, next);
        }
    }
    next
}
