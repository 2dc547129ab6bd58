ghost use Rattle.std.specs.Prelude.{ℕ, ◌≤◌, ◌<◌, ◌≡◌, true, false, List, [], ◌∷◌, length};
ghost use Rattle.model.specs.Rule.{Snapshot};
ghost use Rattle.dossier.specs.DossierBody.{snapshot_bytes};
ghost use Rattle.combining.specs.code.AddIndex.{count_in, measure_in, Measured, MeasuredIn, Splits, MovedUp, with_snapshot};

use values::versions::EventVersion;

// The measures of a dossier are lent as 17 numbers: how many snapshots it has, and two for each of them, its version and how many bytes it has. By these the
// snapshots are found in its bytes, and it need not be read again.
#[derive(Clone, Copy)]
pub struct Measure {
    pub version: EventVersion,
    pub size: usize,
}

// Where the snapshot of a version stands among those of a dossier, or would stand: how many are of lower versions, how many bytes these have, whether one is
// of this version, and how many bytes that one has.
#[derive(Clone, Copy)]
pub struct Place {
    pub index: usize,
    pub before: usize,
    pub meets: bool,
    pub size: usize,
}

fn measure_at(measures: &[usize], k: usize) -> Measure
    requires { (length measures.now ≡ 17) × (k < 8) }
    ensures { result ≡ measure_in measures.now k }
{
    Measure {
        version: EventVersion(measures[2 * k + 1] as u64),
        size: measures[2 * k + 2],
    }
}

fn put_measure(measures: &mut [usize], k: usize, x: Measure)
    requires { (length measures.old ≡ 17) × (k < 8) }
    ensures here { measure_in measures.new k ≡ x }
    ensures others { (j : ℕ) → (j ≡ k → ⊥) → measure_in measures.new j ≡ measure_in measures.old j }
    ensures count { count_in measures.new ≡ count_in measures.old }
{
    let version = x.version;
    measures[2 * k + 1] = version.0 as usize;
    measures[2 * k + 2] = x.size;
}

// The measures of one snapshot.
pub fn measure_one(measures: &mut [usize], x: Measure)
    requires { length measures.old ≡ 17 }
    ensures { (s : Snapshot) → s.version ≡ x.version.0 → length (snapshot_bytes s) ≡ x.size
        → Measured (s ∷ []) measures.new }
{
    measures[0] = 1;
    put_measure(measures, 0, x);
}

pub fn place_of(s: &[u8], measures: &[usize], version: EventVersion) -> Place
    requires { MeasuredIn s.now measures.now × (length measures.now ≡ 17) }
    ensures { (ss : List Snapshot) → Measured ss measures.now → Splits ss version.0 result }
{
    let count = measures[0];
    let mut before: usize = 0;
    for k in 0..count {
        let x = measure_at(measures, k);
        let here = x.version;
        if version.0 == here.0 {
            return Place {
                index: k,
                before,
                meets: true,
                size: x.size,
            };
        }
        if version.0 < here.0 {
            return Place {
                index: k,
                before,
                meets: false,
                size: 0,
            };
        }
        before += x.size;
    }
    Place {
        index: count,
        before,
        meets: false,
        size: 0,
    }
}

// Makes room for the measures of one more snapshot: those from `index` on move up by one, the last first. `copy_within` would call memmove, which who links the
// archive for C need not have.
fn move_up(measures: &mut [usize], index: usize)
    requires { (length measures.old ≡ 17) × (index ≤ count_in measures.old) × (count_in measures.old < 8) }
    ensures { MovedUp measures.old index measures.new }
{
    let count = measures[0];
    for k in (index..count).rev() {
        let x = measure_at(measures, k);
        put_measure(measures, k + 1, x);
    }
    measures[0] = count + 1;
}

// Puts the measures of a snapshot at its place, instead of those that stand there if one has its version.
pub fn put_snapshot(measures: &mut [usize], p: Place, x: Measure)
    requires measures_len { (length measures.old ≡ 17) × (count_in measures.old ≤ 8) × (p.index ≤ count_in measures.old) }
    requires index_bound { (p.meets ≡ true → p.index < count_in measures.old) × (p.meets ≡ false → count_in measures.old < 8) }
    ensures { (ss : List Snapshot) (s : Snapshot) → Measured ss measures.old → s.version ≡ x.version.0
        → length (snapshot_bytes s) ≡ x.size → Measured (with_snapshot ss p s) measures.new }
{
    let at = p.index;
    if !p.meets {
        move_up(measures, at);
    }
    put_measure(measures, at, x);
}
