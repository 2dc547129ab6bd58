ghost use Rattle.std.specs.Prelude.{ℕ, ◌≤◌, ◌≡◌, false, not, ◌&&◌, List, length, drop};
ghost use Rattle.packed.specs.Parse.{such_that};
ghost use Rattle.packed.specs.Packed.{part};
ghost use Rattle.packed.specs.code.Comparison.{precedes};
ghost use Rattle.ontology.specs.Table.{Property, strategy_fits, can_be_marked, type_rules};
ghost use Rattle.ontology.specs.TableLayout.{read_type};
ghost use Rattle.ontology.specs.code.TypeIndex.{PropertyIs, property_fits, read_fitting, PropertiesSay, HeadReads, TypeReads};

use crate::names::read_name;
use crate::properties::{PropertyAt, is_extreme, is_max, is_replace, put_property, read_property};
use packed::order::is_before;
use packed::read::{TextAt, read_number, read_within};
use values::kinds::SEQUENCE;
use values::spaces::is_ordered;
use values::versions::DefinitionVersion;

// A type: where its name stands in the table, its definition version, its event-version mark, and how many properties it has. These are lent beside it, as 96
// numbers, three for each.
#[derive(Clone, Copy)]
pub struct TypeIndex {
    pub start: usize,
    pub end: usize,
    pub definition: DefinitionVersion,
    pub mark: usize,
    pub count: usize,
}

// What stands before the properties of a type, and the position after it. The count of properties is tested here, before any is read.
fn read_head(table: &[u8], at: usize) -> Option<(TypeIndex, usize)>
    ensures { HeadReads table.now at result }
{
    let TextAt { start, end } = read_name(table, at, 64)?;
    let (definition, after_definition) = read_number(table, end)?;
    if definition == 0 {
        return None;
    }
    let (mark, after_mark) = read_number(table, after_definition)?;
    let (count, after_count) = read_within(table, after_mark, 1, 32)?;
    let head = TypeIndex {
        start,
        end,
        definition: DefinitionVersion(definition),
        mark: mark as usize,
        count: count as usize,
    };
    Some((head, after_count))
}

// Whether the name from a up to e comes before that from b up to f. Most names of a type differ in their first byte.
fn name_before(table: &[u8], a: usize, e: usize, b: usize, f: usize) -> bool
    requires { (a ≤ e) × (e ≤ length table.now) × (b ≤ f) × (f ≤ length table.now) }
    ensures { result ≡ precedes (part table.now a e) (part table.now b f) }
{
    if a < e && b < f {
        let x = table[a];
        let y = table[b];
        if x != y {
            return x < y;
        }
    }
    is_before(table, a, e, b, f)
}

fn is_mandatory_single(p: PropertyAt) -> bool
    ensures { result ≡ (not p.optional && not p.multivalued) }
{
    !p.optional && !p.multivalued
}

fn strategy_fits(p: PropertyAt, versioned: bool) -> bool
    ensures { (s : List ℕ) (q : Property) → PropertyIs s q p → result ≡ strategy_fits versioned q }
{
    if is_extreme(p) {
        is_mandatory_single(p) && is_ordered(p.kind)
    } else if is_replace(p) {
        p.optional && !p.multivalued && versioned
    } else {
        true
    }
}

fn can_be_marked(p: PropertyAt) -> bool
    ensures { (s : List ℕ) (q : Property) → PropertyIs s q p → result ≡ can_be_marked q }
{
    p.kind == SEQUENCE && is_max(p) && is_mandatory_single(p)
}

// Whether the property p meets its rules: its name comes after the last one, which is from start up to end; its strategy fits; and it can be marked if it is.
fn property_fits(
    table: &[u8],
    start: usize,
    end: usize,
    p: PropertyAt,
    versioned: bool,
    marked: bool,
) -> bool
    requires { (start ≤ end) × (end ≤ length table.now) × (p.start ≤ p.end) × (p.end ≤ length table.now) }
    ensures { (q : Property) → PropertyIs table.now q p
        → result ≡ property_fits versioned marked (part table.now start end) q }
{
    name_before(table, start, end, p.start, p.end)
        && strategy_fits(p, versioned)
        && (!marked || can_be_marked(p))
}

// The position after the properties of a type. Each is asked its rules as it is read. The first name comes after the empty one.
fn read_properties(
    table: &[u8],
    at: usize,
    count: usize,
    mark: usize,
    keep: bool,
    properties: &mut [usize],
) -> Option<usize>
    requires { (at ≤ length table.now) × (count ≤ 32) × (length properties.old ≡ 96) }
    ensures says { PropertiesSay (read_fitting mark count (drop at table.now)) table.now at count keep
        properties.new result }
    ensures stay { keep ≡ false → properties.new ≡ properties.old }
{
    let mut next = at;
    let mut start: usize = 0;
    let mut end: usize = 0;
    for k in 0..count {
        let (p, after) = read_property(table, next)?;
        if !property_fits(table, start, end, p, 0 < mark, k + 1 == mark) {
            return None;
        }
        if keep {
            put_property(properties, k, p);
        }
        start = p.start;
        end = p.end;
        next = after;
    }
    Some(next)
}

// The type at position `at`, if it meets its rules: those on a field or a property are asked as it is read, and at last that the mark is at most their count.
// Where the properties are not kept, the numbers stay as they were.
pub fn read_type(
    table: &[u8],
    at: usize,
    keep: bool,
    properties: &mut [usize],
) -> Option<(TypeIndex, usize)>
    requires { length properties.old ≡ 96 }
    ensures reads { TypeReads (such_that type_rules read_type (drop at table.now))
        table.now at keep properties.new result }
    ensures stay { keep ≡ false → properties.new ≡ properties.old }
{
    let (t, after_head) = read_head(table, at)?;
    let next = read_properties(table, after_head, t.count, t.mark, keep, properties)?;
    (t.mark <= t.count).then_some((t, next))
}
