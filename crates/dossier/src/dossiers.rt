ghost use Rattle.std.specs.Prelude.{◌≡◌, ◌*◌, ◌≤◌, length, take, drop, IfSome};
ghost use Rattle.std.proofs.Math.Option.{some};
ghost use Rattle.model.specs.Order.{numbers, rising};
ghost use Rattle.model.specs.Limits.{Permitted};
ghost use Rattle.packed.specs.Parse.{times};
ghost use Rattle.replies.specs.ChosenLimits.{limits_of};
ghost use Rattle.dossier.specs.DossierLayout.{Headed, dossier_of};
ghost use Rattle.dossier.specs.DossierBody.{read_snapshot};
ghost use Rattle.dossier.specs.code.DossierIndex.{version_numbers, SnapshotsSay, HasRows, DossierReads};

use crate::head::{dossier_head_end, read_dossier_head};
use crate::snapshots::read_snapshot;
use event::head::HeadAt;
use packed::read::read_within;
use replies::limits::Limits;
use values::versions::EventVersion;

// Where each of the snapshots stands, its version, its differ number and how many objects it has; and the position after the last. There is room for as many
// as the largest limits allow.
#[derive(Clone, Copy)]
pub struct SnapshotsRead {
    pub next: usize,
    pub starts: [usize; 8],
    pub ends: [usize; 8],
    pub versions: [EventVersion; 8],
    pub differs: [u64; 8],
    pub objects: [usize; 8],
}

// Where each thing of a dossier stands: its head, and the start and the end of each of its `count` snapshots, with their versions, their differ numbers and
// how many objects they have. Where their sets stand is lent beside it: rows of 96 numbers, one for each snapshot.
#[derive(Clone, Copy)]
pub struct DossierIndex {
    pub head: HeadAt,
    pub count: usize,
    pub starts: [usize; 8],
    pub ends: [usize; 8],
    pub versions: [EventVersion; 8],
    pub differs: [u64; 8],
    pub objects: [usize; 8],
}

// So many snapshots, from `at` on.
fn read_snapshots(s: &[u8], at: usize, count: usize, rows: &mut [usize]) -> Option<SnapshotsRead>
    requires { (at ≤ length s.now) × (1 ≤ count) × (count ≤ 8) × (96 * count ≤ length rows.old) }
    ensures { SnapshotsSay (times read_snapshot count (drop at s.now)) s.now rows.new result }
{
    let mut r = SnapshotsRead {
        next: at,
        starts: [0; 8],
        ends: [0; 8],
        versions: [EventVersion(0); 8],
        differs: [0; 8],
        objects: [0; 8],
    };
    for j in 0..count {
        let row = &mut rows[96 * j..96 * j + 96];
        let (x, end) = read_snapshot(s, r.next, false, row)?;
        r.starts[j] = r.next;
        r.ends[j] = end;
        r.versions[j] = x.version;
        r.differs[j] = x.differ;
        r.objects[j] = x.objects;
        r.next = end;
    }
    Some(r)
}

fn versions_rise(versions: [EventVersion; 8], count: usize) -> bool
    requires { count ≤ 8 }
    ensures { result ≡ rising numbers (version_numbers (take count versions)) }
{
    versions[..count].is_sorted_by(|a, b| a.0 < b.0)
}

// How many snapshots a dossier has, so that its rows can be lent before it is read; some number where the bytes are no dossier, and 0 where none stands there.
pub fn snapshot_count(s: &[u8], limits: Limits) -> usize
    requires { Permitted (limits_of limits) }
    ensures { (h : Headed) → dossier_of (limits_of limits) s.now ≡ some h → length h.snapshots ≡ result }
{
    match read_within(s, dossier_head_end(s, limits), 1, limits.versions as u64) {
        Some((number, _)) => number as usize,
        None => 0,
    }
}

// The index of a dossier that the bytes are, to their exact end.
pub fn read_dossier(s: &[u8], limits: Limits, rows: &mut [usize]) -> Option<DossierIndex>
    requires { Permitted (limits_of limits) × HasRows (limits_of limits) s.now (length rows.old) }
    ensures dossier_reads { DossierReads (dossier_of (limits_of limits) s.now) s.now rows.new result }
    ensures within { IfSome result (λ (d : DossierIndex). 96 * d.count ≤ length rows.old) }
{
    let (head, after_head) = read_dossier_head(s, limits)?;
    let (number, after_count) = read_within(s, after_head, 1, limits.versions as u64)?;
    let count = number as usize;
    // a dossier has its rows, so that the bytes are none here
    if rows.len() < 96 * count {
        return None;
    }
    let SnapshotsRead {
        next,
        starts,
        ends,
        versions,
        differs,
        objects,
    } = read_snapshots(s, after_count, count, rows)?;
    if next != s.len() || !versions_rise(versions, count) {
        return None;
    }
    Some(DossierIndex {
        head,
        count,
        starts,
        ends,
        versions,
        differs,
        objects,
    })
}
