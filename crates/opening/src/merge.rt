ghost use Rattle.std.specs.Prelude.{ℕ, ◌+◌, ◌*◌, ◌<◌, ◌≤◌, ◌≡◌, true, ◌&&◌, length, take, get_or, leb};
ghost use mathlib.Core.List.{List, [], map, flatten};
ghost use Rattle.std.proofs.Math.ListN.{get_elem?};
ghost use Rattle.model.specs.Order.{Text, texts};
ghost use Rattle.model.specs.Sets.{union, canon, smallest};
ghost use Rattle.model.specs.Rule.{Snapshot, Dossier};
ghost use Rattle.model.specs.Opening.{column, merged_at, merged_sets, overfull};
ghost use Rattle.values.specs.Spaces.{Kind};
ghost use Rattle.values.specs.ValueOrder.{extreme_order};
ghost use Rattle.ontology.specs.Table.{EventType};
ghost use Rattle.ontology.specs.code.TypeIndex.{PropertiesAre};
ghost use Rattle.event.specs.Event.{type_view};
ghost use Rattle.event.specs.EventLayout.{presence_bit, bit_number};
ghost use Rattle.event.specs.code.EventIndex.{SetIs};
ghost use Rattle.opening.specs.code.OpenIndex.{lowest_of, CellsStand, RuleIs, Lone, Chooses, Mergeable};
ghost use Rattle.opening.specs.code.PlanIndex.{PlaceIs, with_place, PlanIs};

use crate::cells::{cell_at, put_set};
use crate::strategies::{PlaceRule, rule_of};
use event::bits::number_of;
use event::sets::{SetAt, set_part, value_in};
use ontology::properties::property_at;
use packed::order::same;
use values::spaces::{compare_values, takes_first};

// The smaller of the values of two sets of at most one, or the larger, where it stands.
fn better(s: &[u8], kind: u8, largest: bool, a: SetAt, b: SetAt) -> SetAt
    ensures { (k : Kind) (vs ws : List Text) → Chooses k kind → SetIs s.now vs a → SetIs s.now ws b
        → Lone k vs → Lone k ws → SetIs s.now (take 1 (union (extreme_order largest k) vs ws)) result }
{
    if a.count == 0 {
        return b;
    }
    if b.count == 0 {
        return a;
    }
    let v = value_in(set_part(s, a), 0);
    let w = value_in(set_part(s, b), 0);
    if takes_first(compare_values(kind, v, w), largest) {
        a
    } else {
        b
    }
}

// The smallest or the largest value of a place in n snapshots.
fn extreme_of(s: &[u8], rows: &[usize], place: usize, n: usize, kind: u8, largest: bool) -> SetAt
    requires { (96 * n ≤ length rows.now) × (place < 32) × (1 ≤ n) × (n ≤ 8) }
    ensures { (ss : List Snapshot) (k : Kind) → CellsStand s.now ss rows.now → length ss ≡ n → Chooses k kind
        → ((j : ℕ) → j < n → Lone k (get_or (column ss place) j []))
        → SetIs s.now (smallest (extreme_order largest k) (flatten (column ss place))) result }
{
    let mut best = cell_at(rows, place, 0);
    for j in 1..n {
        let x = cell_at(rows, place, j);
        best = better(s, kind, largest, best, x);
    }
    best
}

// Where a merged set stands: it is the set of one of the snapshots; or it is a union of sets that differ, and is to be made.
#[derive(Clone, Copy)]
pub enum PlaceMerged {
    Stands(SetAt),
    Joins,
}

// The union of the sets of a place. It stands already where all sets that are not empty are the same.
fn only_set(s: &[u8], rows: &[usize], place: usize, n: usize) -> PlaceMerged
    requires { (96 * n ≤ length rows.now) × (place < 32) × (1 ≤ n) × (n ≤ 8) }
    ensures { (ss : List Snapshot) → CellsStand s.now ss rows.now → length ss ≡ n
        → PlaceIs s.now (canon texts (flatten (column ss place))) (column ss place) result }
{
    let mut only = cell_at(rows, place, 0);
    for j in 1..n {
        let x = cell_at(rows, place, j);
        if x.count != 0 {
            if only.count == 0 {
                only = x;
            } else if !same(set_part(s, only), set_part(s, x)) {
                return PlaceMerged::Joins;
            }
        }
    }
    PlaceMerged::Stands(only)
}

// The merged set of a place: the only snapshot's, the last one's, the one with the chosen value, or the union. At the marked place each snapshot has its own
// version, and versions rise, so the largest is the last one's.
fn merged_at(
    s: &[u8],
    rows: &[usize],
    place: usize,
    n: usize,
    marked: bool,
    rule: PlaceRule,
) -> PlaceMerged
    requires { (96 * n ≤ length rows.now) × (place < 32) × (1 ≤ n) × (n ≤ 8) }
    ensures { (t : EventType) (d : Dossier) → Mergeable s.now rows.now n t d → RuleIs (get_elem? t.properties place) rule
        → (marked ≡ true → place + 1 ≡ t.mark) → PlaceIs s.now (merged_at (type_view t) d place) (column d.snapshots place) result }
{
    if n == 1 || marked || rule.replaces {
        return PlaceMerged::Stands(cell_at(rows, place, n - 1));
    }
    if rule.extreme {
        return PlaceMerged::Stands(extreme_of(s, rows, place, n, rule.kind, rule.largest));
    }
    only_set(s, rows, place, n)
}

// The plan of a place has four numbers: the set that stands, and 0. Where the sets are to be joined, the fourth is 1, and the count is 2, since the union has
// so many values at least.
fn put_place(plan: &mut [usize], place: usize, x: PlaceMerged)
    requires { (length plan.old ≡ 128) × (place < 32) }
    ensures { plan.new ≡ with_place plan.old place x }
{
    match x {
        PlaceMerged::Stands(set) => {
            put_set(plan, 4 * place, set);
            plan[4 * place + 3] = 0;
        }
        PlaceMerged::Joins => {
            plan[4 * place + 2] = 2;
            plan[4 * place + 3] = 1;
        }
    }
}

// The merged sets of all places, before any is made. A place without a property has no objects: its numbers stay 0, as they are lent.
pub fn plan_sets(
    s: &[u8],
    rows: &[usize],
    n: usize,
    count: usize,
    mark: usize,
    properties: &[usize],
    plan: &mut [usize],
)
    requires count_bound { (count ≤ 32) × (1 ≤ n) × (n ≤ 8) × (96 * n ≤ length rows.now) × (length properties.now ≡ 96)
        × (length plan.old ≡ 128) }
    requires by_index { (i : ℕ) → i < 128 → get_or plan.old i 0 ≡ 0 }
    ensures { (u : List ℕ) (ty : EventType) (d : Dossier) → PropertiesAre u ty.properties count properties.now
        → mark ≡ ty.mark → Mergeable s.now rows.now n ty d → PlanIs s.now plan.new ty d }
{
    for p in 0..count {
        let rule = rule_of(property_at(properties, p));
        put_place(plan, p, merged_at(s, rows, p, n, p + 1 == mark, rule));
    }
}

fn is_overfull(single: bool, count: usize) -> bool
    ensures { result ≡ (single && leb 2 count) }
{
    single && 2 <= count
}

// The lowest single-valued place that would get more than one object.
pub fn find_overfull(count: usize, properties: &[usize], plan: &[usize]) -> Option<usize>
    requires { (count ≤ 32) × (length properties.now ≡ 96) × (length plan.now ≡ 128) }
    ensures { (u s : List ℕ) (ty : EventType) (d : Dossier) → PropertiesAre u ty.properties count properties.now
        → PlanIs s plan.now ty d → lowest_of result ≡ overfull (type_view ty) d }
{
    for p in 0..count {
        let property = property_at(properties, p);
        if is_overfull(!property.multivalued, plan[4 * p + 2]) {
            return Some(p);
        }
    }
    None
}

// The presence number of the merged sets.
pub fn presence_of(plan: &[usize]) -> u64
    requires { length plan.now ≡ 128 }
    ensures { (s : List ℕ) (ty : EventType) (d : Dossier) → PlanIs s plan.now ty d
        → result ≡ bit_number (map presence_bit (merged_sets (type_view ty) d)) }
{
    let mut present = [false; 32];
    for p in 0..32 {
        present[p] = 0 < plan[4 * p + 2];
    }
    number_of(present)
}
