ghost use Rattle.std.specs.Prelude.{ℕ, ◌≡◌, true, length};
ghost use Rattle.std.proofs.Math.Option.{some};
ghost use mathlib.Core.List.{List, map, flatten};
ghost use Rattle.model.specs.Order.{Text};
ghost use Rattle.packed.specs.Packed.{text};
ghost use Rattle.values.specs.Spaces.{Kind, string, is_kind};
ghost use Rattle.values.specs.code.KindNumbers.{kind_of};
ghost use Rattle.values.specs.code.LowBytes.{AllLow};
ghost use Rattle.ontology.specs.Table.{EventType};
ghost use Rattle.ontology.specs.code.TypeIndex.{PropertiesAre};
ghost use Rattle.event.specs.EventQuestions.{are_in_space, values_fit};
ghost use Rattle.event.specs.code.EventIndex.{SetsAre, KindsAre};

use crate::sets::{set_at, set_part};
use ontology::properties::property_at;
use packed::read::{TextAt, read_text};
use values::spaces::{in_space, is_plain, is_short};

// Whether each text of those that v is made of, which have no byte above 7F, is in the space of strings of at most so many bytes.
fn are_short(v: &[u8], most: u8) -> bool
    ensures { (vs : List Text) → AllLow v.now → v.now ≡ flatten (map text vs) → result ≡ are_in_space (string most) vs }
{
    let mut at: usize = 0;
    while at < v.len() {
        let Some(TextAt { start: value, end }) = read_text(v, at) else {
            return false;
        };
        if !is_short(most, end - value) {
            return false;
        }
        at = end;
    }
    true
}

// Whether each text of those that v is made of is in the space of a kind. Most strings have no byte above 7F, which is told of all of them at once.
fn are_in_space(v: &[u8], kind: u8, size: u8, after: u8, sign: u8) -> bool
    ensures { (k : Kind) (vs : List Text) → kind_of kind size after sign ≡ some k → is_kind k ≡ true
        → v.now ≡ flatten (map text vs) → result ≡ are_in_space k vs }
{
    if is_plain(kind, v) {
        return are_short(v, size);
    }
    let mut at: usize = 0;
    while at < v.len() {
        let Some(TextAt { start: value, end }) = read_text(v, at) else {
            return false;
        };
        if !in_space(kind, size, after, sign, &v[value..end]) {
            return false;
        }
        at = end;
    }
    true
}

// Whether each value of the sets is in its property's space. A place without a property is asked nothing.
pub fn sets_in_space(s: &[u8], sets: &[usize], count: usize, properties: &[usize]) -> bool
    requires { (length sets.now ≡ 96) × (length properties.now ≡ 96) }
    ensures { (u : List ℕ) (ty : EventType) (xs : List (List Text)) → PropertiesAre u ty.properties count properties.now
        → KindsAre ty → SetsAre s.now xs sets.now → result ≡ values_fit ty xs }
{
    for k in 0..count.min(32) {
        let p = property_at(properties, k);
        if !are_in_space(
            set_part(s, set_at(sets, k)),
            p.kind,
            p.size,
            p.after,
            p.sign,
        ) {
            return false;
        }
    }
    true
}
