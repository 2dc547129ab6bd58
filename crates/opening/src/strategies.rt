ghost use Rattle.std.specs.Prelude.{ℕ, List};
ghost use Rattle.ontology.specs.Table.{Property};
ghost use Rattle.ontology.specs.code.TypeIndex.{PropertyIs};
ghost use Rattle.opening.specs.code.OpenIndex.{RuleOf};

use ontology::properties::{PropertyAt, is_extreme, is_max, is_replace};

// How the sets of a place are merged: the last one, the smallest or the largest value by the order of a kind, or the union.
#[derive(Clone, Copy)]
pub struct PlaceRule {
    pub replaces: bool,
    pub extreme: bool,
    pub largest: bool,
    pub kind: u8,
}

pub fn rule_of(p: PropertyAt) -> PlaceRule
    ensures { (s : List ℕ) (q : Property) → PropertyIs s q p → RuleOf q result }
{
    PlaceRule {
        replaces: is_replace(p),
        extreme: is_extreme(p),
        largest: is_max(p),
        kind: p.kind,
    }
}
