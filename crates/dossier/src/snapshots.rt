ghost use Rattle.std.specs.Prelude.{◌≡◌, List, ℕ, ◌≤◌, ◌<◌, length, drop};
ghost use Rattle.model.specs.Order.{Text};
ghost use Rattle.event.specs.Event.{object_count};
ghost use Rattle.event.specs.code.EventIndex.{SetsAre, Promised};
ghost use Rattle.dossier.specs.DossierBody.{apart, are_small, read_snapshot};
ghost use Rattle.dossier.specs.code.DossierIndex.{NumbersRead, SnapshotReads};

use event::sets::{SetsRead, read_sets, set_at};
use packed::read::read_number;
use values::versions::EventVersion;

// A snapshot's version, its differ number, and how many objects it has. Where its sets stand is lent beside them, as 96 numbers.
#[derive(Clone, Copy)]
pub struct SnapshotNumbers {
    pub version: EventVersion,
    pub differ: u64,
    pub objects: usize,
}

// The numbers that a snapshot begins with, and the position after them.
#[derive(Clone, Copy)]
struct NumbersAt {
    version: EventVersion,
    presence: u64,
    differ: u64,
    after_differ: usize,
}

// Whether no bit is set in both.
fn are_apart(presence: u64, differ: u64) -> bool
    requires { presence < 4294967296 }
    ensures { result ≡ apart 32 presence differ }
{
    presence & differ == 0
}

fn read_numbers(s: &[u8], at: usize) -> Option<NumbersAt>
    ensures { NumbersRead s.now at result }
{
    let (version, after_version) = read_number(s, at)?;
    let (presence, after_presence) = read_number(s, after_version)?;
    if 4294967296 <= presence {
        return None;
    }
    let (differ, after_differ) = read_number(s, after_presence)?;
    if 4294967296 <= differ {
        return None;
    }
    are_apart(presence, differ).then_some(NumbersAt {
        version: EventVersion(version),
        presence,
        differ,
        after_differ,
    })
}

// Whether each set has at most 256 values. None has more than there are objects in all.
fn are_small(sets: &[usize], objects: usize) -> bool
    requires { length sets.now ≡ 96 }
    ensures { (s : List ℕ) (xs : List (List Text)) → SetsAre s xs sets.now → objects ≡ object_count xs → result ≡ are_small xs }
{
    if objects <= 256 {
        return true;
    }
    for k in 0..32 {
        let x = set_at(sets, k);
        if 256 < x.count {
            return false;
        }
    }
    true
}

// The numbers of the snapshot at `at`, the position after it, and where its sets stand. Where one is known to stand there, its values are not compared.
pub fn read_snapshot(
    s: &[u8],
    at: usize,
    known: bool,
    sets: &mut [usize],
) -> Option<(SnapshotNumbers, usize)>
    requires { (at ≤ length s.now) × (length sets.old ≡ 96) × Promised known (read_snapshot (drop at s.now)) }
    ensures { SnapshotReads s.now at sets.new result }
{
    let numbers = read_numbers(s, at)?;
    let SetsRead { next, objects } = read_sets(
        s,
        numbers.after_differ,
        numbers.presence,
        known,
        sets,
    )?;
    let x = SnapshotNumbers {
        version: numbers.version,
        differ: numbers.differ,
        objects,
    };
    are_small(sets, objects).then_some((x, next))
}
