ghost use Rattle.std.specs.Prelude.{ℕ, ◌≤◌, ◌≡◌, not, ◌||◌, List, length};
ghost use Rattle.model.specs.Order.{Text, sets, lists, equal};
ghost use Rattle.ontology.specs.Table.{Property, EventType, is_match};
ghost use Rattle.ontology.specs.code.TypeIndex.{PropertyIs, PropertiesAre};
ghost use Rattle.event.specs.Agreement.{match_sets};
ghost use Rattle.event.specs.code.EventIndex.{SetIs, SetsAre};

use crate::sets::{SetAt, set_at, set_part};
use ontology::properties::{PropertyAt, is_match, property_at};
use packed::order::same;

// Equal bytes are equal sets.
fn place_same(p: PropertyAt, a: &[u8], x: SetAt, b: &[u8], y: SetAt) -> bool
    ensures { (s : List ℕ) (q : Property) (vs ws : List Text) → PropertyIs s q p → SetIs a.now vs x → SetIs b.now ws y
        → result ≡ (not (is_match q) || equal sets vs ws) }
{
    !is_match(p) || same(set_part(a, x), set_part(b, y))
}

// Whether the match sets of two events or snapshots are the same.
pub fn is_match_same(
    count: usize,
    properties: &[usize],
    a: &[u8],
    x: &[usize],
    b: &[u8],
    y: &[usize],
) -> bool
    requires { (count ≤ 32) × (length properties.now ≡ 96) × (length x.now ≡ 96) × (length y.now ≡ 96) }
    ensures { (s : List ℕ) (ty : EventType) (xs ys : List (List Text)) → PropertiesAre s ty.properties count properties.now
        → SetsAre a.now xs x.now → SetsAre b.now ys y.now
        → result ≡ equal (lists sets) (match_sets ty.properties xs) (match_sets ty.properties ys) }
{
    for k in 0..count {
        if !place_same(property_at(properties, k), a, set_at(x, k), b, set_at(y, k)) {
            return false;
        }
    }
    true
}
