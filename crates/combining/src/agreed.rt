ghost use Rattle.std.specs.Prelude.{◌+◌, ◌≤◌, ◌≡◌, true, ◌&&◌, length, ltb};
ghost use Rattle.model.specs.Rule.{Cell, Snapshot, join_snapshots};
ghost use Rattle.model.specs.Opening.{held};
ghost use Rattle.packed.specs.code.Written.{Wrote};
ghost use Rattle.ontology.specs.Table.{EventType, is_versioned};
ghost use Rattle.event.specs.Event.{type_view};
ghost use Rattle.event.specs.code.EventIndex.{SetIs};
ghost use Rattle.dossier.specs.DossierBody.{differ_bit, snapshot_bytes};
ghost use Rattle.dossier.specs.code.DossierIndex.{CellsAre};
ghost use Rattle.combining.specs.code.CombineIndex.{VacantFrom, Shared, AgreedRoom};
ghost use Rattle.combining.specs.code.AgreedIndex.{is_agreed, PlacesAre};

use event::bits::number_of;
use event::sets::{SetAt, set_at, set_part};
use event::write::write_sets;
use packed::order::same;
use packed::write::write_number;
use values::versions::EventVersion;

// The places of a joined snapshot that have objects, and those that are marked.
#[derive(Clone, Copy)]
pub struct Places {
    pub present: [bool; 32],
    pub marked: [bool; 32],
}

// Whether a place keeps its set: neither snapshot marks it, and both have the same one.
fn is_kept(a: &[u8], v: SetAt, b: &[u8], w: SetAt, marks: u64) -> bool
    ensures { (c d : Cell) → marks ≡ differ_bit c + differ_bit d → SetIs a.now (held c) v → SetIs b.now (held d) w
        → result ≡ is_agreed c d }
{
    if marks != 0 || v.count != w.count {
        return false;
    }
    // most places are empty in both, and need no look at their bytes
    v.count == 0 || same(set_part(a, v), set_part(b, w))
}

// Whether a place has objects: it keeps its set, and that is not empty.
fn has_objects(kept: bool, count: usize) -> bool
    ensures { result ≡ (kept && ltb 0 count) }
{
    kept && 0 < count
}

// The places of what two versioned snapshots are together, of a type that has `count` properties. A place past these is vacant in both, and stays so.
fn agreed_places(
    a: &[u8],
    x: &[usize],
    m: u64,
    b: &[u8],
    y: &[usize],
    n: u64,
    count: usize,
) -> Places
    requires { (count ≤ 32) × (length x.now ≡ 96) × (length y.now ≡ 96) }
    ensures { (ty : EventType) (left right : Snapshot) → is_versioned ty ≡ true
        → CellsAre a.now left.cells m x.now → CellsAre b.now right.cells n y.now
        → VacantFrom count left.cells → VacantFrom count right.cells
        → PlacesAre (join_snapshots (type_view ty) left right).cells result }
{
    let mut p = Places {
        present: [false; 32],
        marked: [false; 32],
    };
    let mut left = m;
    let mut right = n;
    for k in 0..count {
        let v = set_at(x, k);
        let w = set_at(y, k);
        let kept = is_kept(a, v, b, w, left % 2 + right % 2);
        p.present[k] = has_objects(kept, v.count);
        p.marked[k] = !kept;
        left /= 2;
        right /= 2;
    }
    p
}

// Writes what two versioned snapshots of one version are together, of a type that has `count` properties.
pub fn write_agreed(
    version: EventVersion,
    a: &[u8],
    x: &[usize],
    m: u64,
    b: &[u8],
    y: &[usize],
    n: u64,
    count: usize,
    out: &mut [u8],
    at: usize,
) -> usize
    requires { (length x.now ≡ 96) × (length y.now ≡ 96)
        × AgreedRoom version a.now x.now m b.now y.now n count at (length out.old) }
    ensures { (ty : EventType) (left right : Snapshot) → is_versioned ty ≡ true → count ≡ length ty.properties
        → Shared version a.now x.now m b.now y.now n ty left right
        → Wrote out.old at (snapshot_bytes (join_snapshots (type_view ty) left right)) out.new result }
{
    let p = agreed_places(a, x, m, b, y, n, count);
    let present = p.present;
    let marked = p.marked;
    let presence = number_of(present);
    let differ = number_of(marked);
    let after_version = write_number(out, at, version.0);
    let after_presence = write_number(out, after_version, presence);
    let after_differ = write_number(out, after_presence, differ);
    write_sets(a, x, presence, out, after_differ)
}
