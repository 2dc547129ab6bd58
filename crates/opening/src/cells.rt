ghost use Rattle.std.specs.Prelude.{ℕ, ◌+◌, ◌*◌, ◌<◌, ◌≤◌, ◌≡◌, List, length};
ghost use Rattle.model.specs.Rule.{Snapshot};
ghost use Rattle.model.specs.Opening.{column};
ghost use Rattle.unions.specs.code.Merging.{SetRuns};
ghost use Rattle.opening.specs.code.CellIndex.{set_from, with_set, cell_in};
ghost use Rattle.opening.specs.code.OpenIndex.{CellsStand};

use event::sets::SetAt;

// Eight runs of a dossier: where each starts, and where it ends.
#[derive(Clone, Copy)]
pub struct Runs {
    pub starts: [usize; 8],
    pub ends: [usize; 8],
}

// A set among numbers, from position `at` on: where it starts, where it ends, and its count.
pub fn set_from(xs: &[usize], at: usize) -> SetAt
    requires { at + 2 < length xs.now }
    ensures { result ≡ set_from xs.now at }
{
    SetAt {
        start: xs[at],
        end: xs[at + 1],
        count: xs[at + 2],
    }
}

pub fn put_set(xs: &mut [usize], at: usize, x: SetAt)
    requires { at + 2 < length xs.old }
    ensures { xs.new ≡ with_set xs.old at x }
{
    xs[at] = x.start;
    xs[at + 1] = x.end;
    xs[at + 2] = x.count;
}

// The set of a place in snapshot j: each snapshot has a row of 96 numbers.
pub fn cell_at(rows: &[usize], place: usize, j: usize) -> SetAt
    requires { (96 * j + 96 ≤ length rows.now) × (place < 32) }
    ensures { result ≡ cell_in rows.now place j }
{
    set_from(rows, 96 * j + 3 * place)
}

// The runs of a place, one for each of n snapshots, from their rows.
pub fn runs_of(rows: &[usize], place: usize, n: usize) -> Runs
    requires { (96 * n ≤ length rows.now) × (place < 32) }
    ensures { (s : List ℕ) (ss : List Snapshot) → CellsStand s ss rows.now → length ss ≡ n
        → SetRuns s result.starts result.ends (length ss) (column ss place) }
{
    let mut r = Runs {
        starts: [0; 8],
        ends: [0; 8],
    };
    // eight turns whatever n is: a loop of so many is unrolled, and one of n turns is slower
    for j in 0..8 {
        if j < n {
            let x = cell_at(rows, place, j);
            r.starts[j] = x.start;
            r.ends[j] = x.end;
        }
    }
    r
}
