ghost use Rattle.std.specs.Prelude.{ℕ, ◌≤◌, ◌≡◌, List, [], ◌∷◌, map, get_or};
ghost use Rattle.model.specs.Sets.{up_to};
ghost use Rattle.model.specs.Rule.{Cell, holds, Snapshot};
ghost use Rattle.model.specs.Opening.{lowest, is_mark, conflict};
ghost use Rattle.event.specs.EventLayout.{bit_number};
ghost use Rattle.dossier.specs.DossierLayout.{Headed};
ghost use Rattle.dossier.specs.DossierBody.{differ_bit};
ghost use Rattle.dossier.specs.code.DossierIndex.{DossierIs};
ghost use Rattle.opening.specs.code.OpenIndex.{lowest_of, conflict_of};

use dossier::dossiers::DossierIndex;
use values::versions::EventVersion;

// The lowest place whose differ bit is set.
fn lowest_mark(differ: u64) -> Option<usize>
    ensures { (cs : List Cell) → differ ≡ bit_number (map differ_bit cs)
        → lowest_of result ≡ lowest (λ p. is_mark (get_or cs p (holds []))) (up_to 32) }
{
    let place = differ.trailing_zeros() as usize;
    (place < 32).then_some(place)
}

// The conflict of a snapshot, its event version and its place, from its version and its differ number.
fn snapshot_conflict(version: EventVersion, differ: u64) -> Option<(EventVersion, usize)>
    ensures { (x : Snapshot) → version.0 ≡ x.version → differ ≡ bit_number (map differ_bit x.cells)
        → conflict_of result ≡ conflict (up_to 32) (x ∷ []) }
{
    let place = lowest_mark(differ)?;
    Some((version, place))
}

// The event version of the lowest snapshot with a differ bit, and its lowest place.
pub fn find_conflict(d: DossierIndex) -> Option<(EventVersion, usize)>
    requires { d.count ≤ 8 }
    ensures { (s : List ℕ) (h : Headed) → DossierIs s h d → conflict_of result ≡ conflict (up_to 32) h.snapshots }
{
    for j in 0..d.count {
        if let Some(found) = snapshot_conflict(d.versions[j], d.differs[j]) {
            return Some(found);
        }
    }
    None
}
