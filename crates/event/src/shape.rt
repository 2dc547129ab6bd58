ghost use Rattle.std.specs.Prelude.{ℕ, ◌≡◌, cond, List, length};
ghost use Rattle.model.specs.Order.{Text};
ghost use Rattle.ontology.specs.Table.{Property, EventType};
ghost use Rattle.ontology.specs.code.TypeIndex.{PropertyIs, PropertiesAre, has_match};
ghost use Rattle.event.specs.Event.{Event, object_count};
ghost use Rattle.event.specs.EventQuestions.{set_fits, event_shape};
ghost use Rattle.event.specs.code.EventIndex.{SetsAre};

use crate::sets::set_at;
use ontology::properties::{PropertyAt, is_match, property_at};

// Whether a property may have so many objects.
fn set_fits(p: PropertyAt, count: usize) -> bool
    ensures { (s : List ℕ) (q : Property) (vs : List Text) → PropertyIs s q p → count ≡ length vs → result ≡ set_fits q vs }
{
    match count {
        0 => p.optional,
        1 => true,
        _ => p.multivalued,
    }
}

// How many of a property's objects are match objects.
pub fn matches_at(p: PropertyAt, count: usize) -> usize
    ensures { result ≡ cond (has_match p) count 0 }
{
    if is_match(p) { count } else { 0 }
}

// Question 5. The match objects are counted no further than 32. The objects that are left after the last property stand at places without one.
pub fn shape_ok(count: usize, properties: &[usize], objects: usize, sets: &[usize]) -> bool
    requires { (length properties.now ≡ 96) × (length sets.now ≡ 96) }
    ensures { (table event : List ℕ) (y : EventType) (x : Event) → PropertiesAre table y.properties count properties.now
        → SetsAre event x.sets sets.now → objects ≡ object_count x.sets → result ≡ event_shape y x }
{
    let mut left = objects;
    let mut matches = 0;
    for k in 0..count.min(32) {
        let p = property_at(properties, k);
        let set = set_at(sets, k);
        if !set_fits(p, set.count) {
            return false;
        }
        let n = matches_at(p, set.count);
        if 32 - matches < n {
            return false;
        }
        if left < set.count {
            return false;
        }
        left -= set.count;
        matches += n;
    }
    left == 0
}
