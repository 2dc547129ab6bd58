ghost use Rattle.std.specs.Prelude.{◌*◌, ◌<◌, ◌≤◌, ◌≡◌, length};
ghost use mathlib.Core.List.{flatten};
ghost use Rattle.model.specs.Order.{texts};
ghost use Rattle.model.specs.Sets.{canon};
ghost use Rattle.model.specs.Opening.{column, merged_sets};
ghost use Rattle.packed.specs.code.Written.{Wrote};
ghost use Rattle.event.specs.Event.{type_view};
ghost use Rattle.event.specs.EventLayout.{set_bytes, sets_bytes, event_bytes};
ghost use Rattle.dossier.specs.DossierLayout.{model_of};
ghost use Rattle.opening.specs.OpenCall.{merged_event};
ghost use Rattle.opening.specs.code.PlanIndex.{JoinedRoom, SetsRoom, Writable};

use crate::cells::{runs_of, set_from};
use crate::merge::presence_of;
use dossier::dossiers::DossierIndex;
use event::head::{hashes_part, text_part, write_head};
use event::write::write_set;
use packed::write::write_number;
use unions::counted::write_before;
use unions::many::write_merged;

// The union of the sets of a place, which has a value at least: its values first, since they tell its count.
fn write_joined(
    s: &[u8],
    rows: &[usize],
    place: usize,
    n: usize,
    out: &mut [u8],
    at: usize,
) -> usize
    requires { (96 * n ≤ length rows.now) × (place < 32) × (n ≤ 8) × JoinedRoom s.now rows.now place n at (length out.old) }
    ensures { (p : JoinedRoom s.now rows.now place n at (length out.old))
        → Wrote out.old at (set_bytes (canon texts (flatten (column p.snapshots place)))) out.new result }
{
    let runs = runs_of(rows, place, n);
    let starts = runs.starts;
    let ends = runs.ends;
    let joined = write_merged(s, starts, ends, n, out, at + 1);
    write_before(out, at, joined.next, joined.count as u64)
}

// The merged set of each place that has a property. One that stands already is copied, and nothing is written of an empty one.
fn write_sets(
    s: &[u8],
    rows: &[usize],
    n: usize,
    count: usize,
    plan: &[usize],
    out: &mut [u8],
    at: usize,
) -> usize
    requires n_in_bounds { (96 * n ≤ length rows.now) × (length plan.now ≡ 128) × (n ≤ 8) × (count ≤ 32) }
    requires sets_room { SetsRoom s.now rows.now n count plan.now at (length out.old) }
    ensures { (p : SetsRoom s.now rows.now n count plan.now at (length out.old))
        → Wrote out.old at (sets_bytes (merged_sets (type_view p.type) p.dossier)) out.new result }
{
    let mut next = at;
    for p in 0..count {
        if plan[4 * p + 3] == 1 {
            next = write_joined(s, rows, p, n, out, next);
        } else {
            next = write_set(s, set_from(plan, 4 * p), out, next);
        }
    }
    next
}

// Writes the merged event at the front of `out`.
pub fn write_event(
    s: &[u8],
    d: DossierIndex,
    rows: &[usize],
    count: usize,
    plan: &[usize],
    out: &mut [u8],
) -> usize
    requires { (96 * d.count ≤ length rows.now) × (length plan.now ≡ 128) × (count ≤ 32)
        × Writable s.now d rows.now count plan.now (length out.old) }
    ensures { (w : Writable s.now d rows.now count plan.now (length out.old))
        → Wrote out.old 0 (event_bytes (merged_event w.headed (merged_sets (type_view w.type) (model_of w.headed)))) out.new result }
{
    let head = d.head;
    let name = text_part(s, head.name);
    let source = text_part(s, head.source);
    let hashes = hashes_part(s, head.parents);
    let after_head = write_head(name, source, hashes, out, 0);
    let after_presence = write_number(out, after_head, presence_of(plan));
    write_sets(s, rows, d.count, count, plan, out, after_presence)
}
