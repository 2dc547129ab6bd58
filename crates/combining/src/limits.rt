ghost use Rattle.std.specs.Prelude.{ℕ, ◌≤◌, ◌≡◌, List, map, true, false, leb, length, take};
ghost use Rattle.model.specs.Order.{Text, texts, numbers, rising};
ghost use Rattle.model.specs.Sets.{union};
ghost use Rattle.model.specs.Rule.{holds, join_cell, Snapshot, join_snapshots, sizes};
ghost use Rattle.model.specs.Limits.{fits};
ghost use Rattle.model.specs.Opening.{held};
ghost use Rattle.replies.specs.ChosenLimits.{limits_of};
ghost use Rattle.ontology.specs.Table.{EventType, is_versioned};
ghost use Rattle.ontology.specs.code.TypeIndex.{PropertiesAre};
ghost use Rattle.event.specs.Event.{type_view};
ghost use Rattle.event.specs.code.EventIndex.{SetIs, SetsAre, HashesAre};
ghost use Rattle.unions.specs.code.Runs.{Hashes};
ghost use Rattle.dossier.specs.code.DossierIndex.{version_numbers};
ghost use Rattle.combining.specs.CombineCall.{combined};
ghost use Rattle.combining.specs.code.CombineIndex.{is_extreme_at, Combinable, Meet};

use dossier::dossiers::DossierIndex;
use event::head::hashes_part;
use event::sets::{SetAt, set_at, set_part};
use ontology::properties::{is_extreme, property_at};
use ontology::types::TypeIndex;
use replies::limits::Limits;
use unions::pair::{count_hash_union, count_union};
use values::versions::EventVersion;

// How many versions two dossiers have together, where each has its versions rising.
pub fn count_versions(v: [EventVersion; 8], m: usize, w: [EventVersion; 8], n: usize) -> usize
    requires { (m ≤ 8) × (n ≤ 8) }
    ensures { rising numbers (version_numbers (take m v)) ≡ true → rising numbers (version_numbers (take n w)) ≡ true
        → result ≡ length (union numbers (version_numbers (take m v)) (version_numbers (take n w))) }
{
    let mut i: usize = 0;
    let mut j: usize = 0;
    let mut count: usize = 0;
    while i < m {
        if n <= j {
            return count + (m - i);
        }
        let a = v[i];
        let b = w[j];
        if a.0 <= b.0 {
            i += 1;
        }
        if b.0 <= a.0 {
            j += 1;
        }
        count += 1;
    }
    count + (n - j)
}

// A place of strategy min or max has one value.
pub fn is_extreme_at(count: usize, properties: &[usize], k: usize) -> bool
    requires { (count ≤ 32) × (length properties.now ≡ 96) }
    ensures { (u : List ℕ) (ty : EventType) → PropertiesAre u ty.properties count properties.now → result ≡ is_extreme_at ty k }
{
    k < count && is_extreme(property_at(properties, k))
}

// How many objects a place has where two unversioned snapshots are joined.
fn count_place(
    count: usize,
    properties: &[usize],
    k: usize,
    a: &[u8],
    x: SetAt,
    b: &[u8],
    y: SetAt,
) -> usize
    requires { (count ≤ 32) × (length properties.now ≡ 96) }
    ensures { (u : List ℕ) (ty : EventType) (xs ys : List Text) → PropertiesAre u ty.properties count properties.now
        → SetIs a.now xs x → SetIs b.now ys y → rising texts xs ≡ true → rising texts ys ≡ true
        → (is_extreme_at ty k ≡ true → (length xs ≤ 1) × (length ys ≤ 1))
        → result ≡ length (held (join_cell false ((type_view ty).choice k) (holds xs) (holds ys))) }
{
    if is_extreme_at(count, properties, k) {
        if x.count == 0 { y.count } else { 1 }
    } else {
        count_union(set_part(a, x), set_part(b, y))
    }
}

// Whether two unversioned snapshots of m and n objects have at most `most` when they are joined. They have no more than m and n together, so they are
// counted only where that is above it. A place past the type's properties has none.
pub fn objects_fit(
    a: &[u8],
    x: &[usize],
    m: usize,
    b: &[u8],
    y: &[usize],
    n: usize,
    most: usize,
    count: usize,
    properties: &[usize],
) -> bool
    requires { (count ≤ 32) × (length x.now ≡ 96) × (length y.now ≡ 96) × (length properties.now ≡ 96) }
    ensures { (u : List ℕ) (ty : EventType) (left right : Snapshot)
        → PropertiesAre u ty.properties count properties.now → is_versioned ty ≡ false → Meet ty left right
        → m ≡ sizes left.cells → n ≡ sizes right.cells
        → SetsAre a.now (map held left.cells) x.now → SetsAre b.now (map held right.cells) y.now
        → result ≡ leb (sizes (join_snapshots (type_view ty) left right).cells) most }
{
    if m <= most && n <= most - m {
        return true;
    }
    let mut room = most;
    for k in 0..count {
        let here = count_place(count, properties, k, a, set_at(x, k), b, set_at(y, k));
        if room < here {
            return false;
        }
        room -= here;
    }
    true
}

// Whether two sides have at most `most` parents together. They are counted only where those of each, added up, are more.
pub fn parents_fit(a: &[u8], x: SetAt, b: &[u8], y: SetAt, most: usize) -> bool
    ensures { (gs hs : List Text) → HashesAre a.now gs x → HashesAre b.now hs y → Hashes gs → Hashes hs
        → rising texts gs ≡ true → rising texts hs ≡ true → result ≡ leb (length (union texts gs hs)) most }
{
    if x.count <= most && y.count <= most - x.count {
        return true;
    }
    count_hash_union(hashes_part(a, x), hashes_part(b, y)) <= most
}

// Question 8: parents, versions, and objects of an unversioned type.
pub fn limits_fit(
    limits: Limits,
    a: &[u8],
    d: DossierIndex,
    left: &[usize],
    b: &[u8],
    e: DossierIndex,
    right: &[usize],
    t: TypeIndex,
    properties: &[usize],
) -> bool
    requires count_bound { (d.count ≤ 8) × (e.count ≤ 8) × (t.count ≤ 32) }
    requires in_bounds { (96 ≤ length left.now) × (96 ≤ length right.now) × (length properties.now ≡ 96) }
    ensures { (table : List ℕ)
        (h : Combinable table a.now d left.now b.now e right.now t properties.now)
        → result ≡ fits (limits_of limits) (type_view h.known.left.type) (combined h.known.left h.known.right) }
{
    let x = d.head;
    let y = e.head;
    let v = d.versions;
    let w = e.versions;
    if !parents_fit(a, x.parents, b, y.parents, limits.parents)
        || limits.versions < count_versions(v, d.count, w, e.count)
    {
        return false;
    }
    let m = d.objects[0];
    let n = e.objects[0];
    0 < t.mark
        || objects_fit(
            a,
            &left[0..96],
            m,
            b,
            &right[0..96],
            n,
            limits.objects,
            t.count,
            properties,
        )
}
