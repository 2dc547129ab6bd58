ghost use Rattle.std.specs.Prelude.{ℕ, ◌-◌, ◌≤◌, ◌≡◌, Bool, cond, not, ◌&&◌, ◌||◌, List, [], ◌∷◌, map, length, leb};
ghost use Rattle.model.specs.Order.{Text, sets, equal};
ghost use Rattle.model.specs.Rule.{Cell, Snapshot, sizes};
ghost use Rattle.model.specs.Opening.{held, cell_at};
ghost use Rattle.values.specs.Decimal.{in_decimal};
ghost use Rattle.replies.specs.ChosenLimits.{limits_of};
ghost use Rattle.ontology.specs.Table.{Property, EventType, is_versioned};
ghost use Rattle.ontology.specs.code.TypeIndex.{PropertiesAre, has_extreme, has_match};
ghost use Rattle.event.specs.EventQuestions.{match_count};
ghost use Rattle.event.specs.code.EventIndex.{SetIs, SetsAre};
ghost use Rattle.dossier.specs.DossierQuestions.{each_cell, is_vacant, holds_version};
ghost use Rattle.dossier.specs.code.DossierIndex.{CellsAre, cell_fits, MasksAre, masks_fit, snapshot_fits, version_fits, SnapshotIs};

use crate::snapshots::SnapshotNumbers;
use event::sets::{SetAt, set_at, set_part, value_in};
use event::shape::matches_at;
use ontology::properties::{PropertyAt, is_extreme, is_match, property_at};
use replies::limits::Limits;
use values::numerals::is_in_decimal;
use values::versions::EventVersion;

// What question 5 asks of the places of a snapshot, a bit for each place, the first by the lowest: which places have a property, which have to be present or
// marked, which have at most one object, and which are not marked. They are the same for all snapshots of a dossier.
#[derive(Clone, Copy)]
pub struct ShapeMasks {
    pub all: u64,
    pub mandatory: u64,
    pub lone: u64,
    pub unmarked: u64,
}

// At most one object is allowed: in a versioned dossier in a single set, in an unversioned one in min and max, and in a match set that is single.
fn is_lone_place(p: PropertyAt, versioned: bool) -> bool
    ensures { result ≡ cond versioned (not p.multivalued) (has_extreme p || (has_match p && not p.multivalued)) }
{
    if versioned {
        !p.multivalued
    } else {
        is_extreme(p) || is_match(p) && !p.multivalued
    }
}

// A match set is unmarked, and in an unversioned dossier every set is.
fn is_unmarked_place(p: PropertyAt, versioned: bool) -> bool
    ensures { result ≡ (not versioned || has_match p) }
{
    !versioned || is_match(p)
}

// The masks of a type, from the highest place down.
pub fn masks_of(versioned: bool, count: usize, properties: &[usize]) -> ShapeMasks
    requires { (count ≤ 32) × (length properties.now ≡ 96) }
    ensures { (s : List ℕ) (qs : List Property) → PropertiesAre s qs count properties.now → MasksAre versioned qs result }
{
    let mut m = ShapeMasks {
        all: 0,
        mandatory: 0,
        lone: 0,
        unmarked: 0,
    };
    for k in (0..count).rev() {
        let p = property_at(properties, k);
        m.all = 2 * m.all + 1;
        m.mandatory = 2 * m.mandatory + u64::from(!p.optional);
        m.lone = 2 * m.lone + u64::from(is_lone_place(p, versioned));
        m.unmarked = 2 * m.unmarked + u64::from(is_unmarked_place(p, versioned));
    }
    m
}

// What question 5 asks of all places at once, by the places that have objects, those that have several, and those that are marked.
fn masks_fit(m: ShapeMasks, present: u64, several: u64, differ: u64) -> bool
    ensures { result ≡ masks_fit m present several differ }
{
    differ <= m.all
        && (present | differ) & m.mandatory == m.mandatory
        && several & m.lone == 0
        && differ & m.unmarked == 0
}

// The same of a snapshot's sets. The objects that are left after the places of all properties stand at places without one.
fn cells_fit(m: ShapeMasks, count: usize, differ: u64, objects: usize, sets: &[usize]) -> bool
    requires { (count ≤ 32) × (length sets.now ≡ 96) }
    ensures { (u : List ℕ) (qs : List Property) (cs : List Cell) (versioned : Bool) → count ≡ length qs → MasksAre versioned qs m
        → CellsAre u cs differ sets.now → objects ≡ sizes cs → result ≡ each_cell (cell_fits versioned) is_vacant qs cs }
{
    let mut present: u64 = 0;
    let mut several: u64 = 0;
    let mut left = objects;
    for k in (0..count).rev() {
        let n = sets[3 * k + 2];
        if left < n {
            return false;
        }
        left -= n;
        present = 2 * present + u64::from(0 < n);
        several = 2 * several + u64::from(1 < n);
    }
    left == 0 && masks_fit(m, present, several, differ)
}

// At most 32 match objects.
fn is_match_small(count: usize, properties: &[usize], sets: &[usize]) -> bool
    requires { (count ≤ 32) × (length properties.now ≡ 96) × (length sets.now ≡ 96) }
    ensures { (s u : List ℕ) (qs : List Property) (xs : List (List Text)) → PropertiesAre s qs count properties.now
        → SetsAre u xs sets.now → result ≡ leb (match_count qs xs) 32 }
{
    let mut left: usize = 32;
    for k in 0..count {
        let x = set_at(sets, k);
        let n = matches_at(property_at(properties, k), x.count);
        if left < n {
            return false;
        }
        left -= n;
    }
    true
}

fn is_version(s: &[u8], x: SetAt, version: EventVersion) -> bool
    ensures { (vs : List Text) → SetIs s.now vs x → result ≡ equal sets vs (in_decimal version.0 ∷ []) }
{
    x.count == 1 && is_in_decimal(value_in(set_part(s, x), 0), version.0)
}

// The version property holds the snapshot's version. A marked one holds nothing.
fn holds_version(s: &[u8], sets: &[usize], version: EventVersion, mark: usize) -> bool
    requires { (1 ≤ mark) × (length sets.now ≡ 96) }
    ensures { (y : Snapshot) → version.0 ≡ y.version → SetsAre s.now (map held y.cells) sets.now
        → result ≡ holds_version y.version (cell_at y (mark - 1)) }
{
    mark <= 32 && is_version(s, set_at(sets, mark - 1), version)
}

fn fits_by_version(
    s: &[u8],
    sets: &[usize],
    x: SnapshotNumbers,
    mark: usize,
    limits: Limits,
) -> bool
    requires { length sets.now ≡ 96 }
    ensures { (y : Snapshot) (ty : EventType) → mark ≡ ty.mark → SnapshotIs s.now y x sets.now
        → result ≡ version_fits (limits_of limits) ty y }
{
    if mark == 0 {
        x.version.0 == 0 && x.objects <= limits.objects
    } else {
        x.objects <= 32 && holds_version(s, sets, x.version, mark)
    }
}

// All that question 5 asks of one snapshot. There are no more match objects than objects.
pub fn snapshot_fits(
    s: &[u8],
    sets: &[usize],
    x: SnapshotNumbers,
    m: ShapeMasks,
    mark: usize,
    limits: Limits,
    count: usize,
    properties: &[usize],
) -> bool
    requires { (count ≤ 32) × (length sets.now ≡ 96) × (length properties.now ≡ 96) }
    ensures { (u : List ℕ) (ty : EventType) (y : Snapshot) → mark ≡ ty.mark
        → PropertiesAre u ty.properties count properties.now
        → MasksAre (is_versioned ty) ty.properties m → SnapshotIs s.now y x sets.now →
        result ≡ snapshot_fits (limits_of limits) ty y }
{
    cells_fit(m, count, x.differ, x.objects, sets)
        && (x.objects <= 32 || is_match_small(count, properties, sets))
        && fits_by_version(s, sets, x, mark, limits)
}
