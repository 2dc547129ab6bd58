ghost use Rattle.std.specs.Prelude.{ℕ, ◌*◌, ◌≤◌, ◌≡◌, length};
ghost use mathlib.Core.List.{List, map, flatten};
ghost use Rattle.model.specs.Rule.{Snapshot, join_snapshots};
ghost use Rattle.packed.specs.code.Written.{Wrote};
ghost use Rattle.ontology.specs.Table.{EventType};
ghost use Rattle.ontology.specs.code.TypeIndex.{TypeIs};
ghost use Rattle.event.specs.Event.{type_view};
ghost use Rattle.event.specs.Head.{Head};
ghost use Rattle.dossier.specs.DossierLayout.{Headed, dossier_bytes};
ghost use Rattle.dossier.specs.DossierBody.{snapshot_bytes};
ghost use Rattle.dossier.specs.code.DossierIndex.{DossierIs};
ghost use Rattle.dossier.specs.DossierHead.{dossier_head_bytes};
ghost use Rattle.combining.specs.CombineCall.{headed_as, combined};
ghost use Rattle.combining.specs.code.CombineIndex.{Combinable, Shared};
ghost use Rattle.combining.specs.code.WriteIndex.{SharedRoom, bytes_from, RestRoom, SnapshotsRoom, both_heads, HeadsAre, HeadsRoom, CombinedRoom};

use crate::agreed::write_agreed;
use crate::joined::write_joined;
use crate::limits::count_versions;
use dossier::dossiers::DossierIndex;
use dossier::head::write_dossier_head;
use event::head::{HeadAt, hashes_part, text_part};
use ontology::types::TypeIndex;
use packed::order::same;
use packed::read::part_of;
use packed::write::{copy, copy_part, write_number};
use unions::pair::write_hash_union;
use values::versions::EventVersion;

// Writes what two snapshots of one version are together, of which `left` and `right` are the bytes.
pub fn write_shared<'a>(
    version: EventVersion,
    a: &'a [u8],
    x: &[usize],
    m: u64,
    b: &'a [u8],
    y: &[usize],
    n: u64,
    left: &[u8],
    right: &[u8],
    t: TypeIndex,
    properties: &[usize],
    out: &mut [u8],
    at: usize,
) -> usize
    requires { (length x.now ≡ 96) × (length y.now ≡ 96) × (length properties.now ≡ 96)
        × SharedRoom version a.now x.now m b.now y.now n left.now right.now t properties.now at (length out.old) }
    ensures { (u : List ℕ) (ty : EventType) (g h : Snapshot) → TypeIs u ty t properties.now
        → Shared version a.now x.now m b.now y.now n ty g h
        → left.now ≡ snapshot_bytes g → right.now ≡ snapshot_bytes h
        → Wrote out.old at (snapshot_bytes (join_snapshots (type_view ty) g h)) out.new result }
{
    // a snapshot together with itself is itself
    if same(left, right) {
        return copy(left, out, at);
    }
    if 0 < t.mark {
        return write_agreed(version, a, x, m, b, y, n, t.count, out, at);
    }
    write_joined(a, x, b, y, t.count, properties, out, at)
}

// The snapshots of one side from the i-th on, which stand one after the other.
fn write_rest(s: &[u8], d: DossierIndex, i: usize, out: &mut [u8], at: usize) -> usize
    requires { RestRoom s.now d i at (length out.old) }
    ensures { (h : Headed) → DossierIs s.now h d → Wrote out.old at (bytes_from h.snapshots i) out.new result }
{
    if d.count <= i {
        return at;
    }
    let start = d.starts[i];
    let end = d.ends[d.count - 1];
    copy_part(s, start, end, out, at)
}

// The snapshots of both sides by rising version: that of the lower version as it stands, and two of one version together.
fn write_snapshots<'a>(
    a: &'a [u8],
    d: DossierIndex,
    left: &[usize],
    b: &'a [u8],
    e: DossierIndex,
    right: &[usize],
    t: TypeIndex,
    properties: &[usize],
    out: &mut [u8],
    at: usize,
) -> usize
    requires { (96 * d.count ≤ length left.now) × (96 * e.count ≤ length right.now) × (length properties.now ≡ 96)
        × SnapshotsRoom a.now d left.now b.now e right.now t properties.now at (length out.old) }
    ensures { (table : List ℕ)
        (h : Combinable table a.now d left.now b.now e right.now t properties.now)
        → Wrote out.old at (flatten (map snapshot_bytes (combined h.known.left h.known.right).snapshots)) out.new result }
{
    let mut i: usize = 0;
    let mut j: usize = 0;
    let mut next = at;
    while i < d.count {
        if e.count <= j {
            return write_rest(a, d, i, out, next);
        }
        let v = d.versions[i];
        let w = e.versions[j];
        if v.0 < w.0 {
            next = copy_part(a, d.starts[i], d.ends[i], out, next);
            i += 1;
        } else if w.0 < v.0 {
            next = copy_part(b, e.starts[j], e.ends[j], out, next);
            j += 1;
        } else {
            next = write_shared(
                v,
                a,
                &left[96 * i..96 * i + 96],
                d.differs[i],
                b,
                &right[96 * j..96 * j + 96],
                e.differs[j],
                part_of(a, d.starts[i], d.ends[i]),
                part_of(b, e.starts[j], e.ends[j]),
                t,
                properties,
                out,
                next,
            );
            i += 1;
            j += 1;
        }
    }
    write_rest(b, e, j, out, next)
}

// The head of the left side, with the parents of both. Their union is made apart first, since a head is written from hashes that stand one after the other;
// it has at most 32, as question 8 was answered yes.
pub fn write_heads<'a>(a: &'a [u8], x: HeadAt, b: &'a [u8], y: HeadAt, out: &mut [u8]) -> usize
    requires { HeadsRoom a.now x b.now y (length out.old) }
    ensures { (g h : Head) → HeadsAre a.now x b.now y g h
        → Wrote out.old 0 (dossier_head_bytes (both_heads g h)) out.new result }
{
    let mut hashes = [0u8; 640];
    let size = write_hash_union(
        hashes_part(a, x.parents),
        hashes_part(b, y.parents),
        &mut hashes,
        0,
    );
    let name = text_part(a, x.name);
    let source = text_part(a, x.source);
    write_dossier_head(name, source, &hashes[0..size], out)
}

// Writes the combined dossier at the front of `out`.
pub fn write_combined<'a>(
    a: &'a [u8],
    d: DossierIndex,
    left: &[usize],
    b: &'a [u8],
    e: DossierIndex,
    right: &[usize],
    t: TypeIndex,
    properties: &[usize],
    out: &mut [u8],
) -> usize
    requires { (96 * d.count ≤ length left.now) × (96 * e.count ≤ length right.now) × (length properties.now ≡ 96)
        × CombinedRoom a.now d left.now b.now e right.now t properties.now (length out.old) }
    ensures { (table : List ℕ)
        (h : Combinable table a.now d left.now b.now e right.now t properties.now)
        → Wrote out.old 0 (dossier_bytes (headed_as h.known.left.headed (combined h.known.left h.known.right)))
        out.new result }
{
    let v = d.versions;
    let w = e.versions;
    let x = d.head;
    let y = e.head;
    let after_head = write_heads(a, x, b, y, out);
    let after_count = write_number(
        out,
        after_head,
        count_versions(v, d.count, w, e.count) as u64,
    );
    write_snapshots(a, d, left, b, e, right, t, properties, out, after_count)
}
