ghost use Rattle.std.specs.Prelude.{ℕ, ◌<◌, ◌≡◌, length, drop};
ghost use Rattle.packed.specs.Parse.{such_that};
ghost use Rattle.packed.specs.Packed.{read_number, is_within};
ghost use Rattle.packed.specs.code.Located.{NumberReads};
ghost use Rattle.ontology.specs.Table.{min, any, strategy_number};
ghost use Rattle.ontology.specs.TableLayout.{read_property};
ghost use Rattle.ontology.specs.code.TypeIndex.{has_max, has_extreme, has_replace, has_match, PropertyReads, code_of, property_in};

use crate::fields::read_flag;
use crate::kinds::read_kind;
use crate::names::read_name;
use packed::read::{TextAt, read_within};

// "strategy 1 min, 2 max, 3 add, 4 replace, 5 match, 6 set, 7 any"
pub const MIN: u8 = 1;

pub const MAX: u8 = 2;

pub const ADD: u8 = 3;

pub const REPLACE: u8 = 4;

pub const MATCH: u8 = 5;

pub const SET: u8 = 6;

pub const ANY: u8 = 7;

// A property of a type: where its name stands in the table, and its numbers.
#[derive(Clone, Copy)]
pub struct PropertyAt {
    pub start: usize,
    pub end: usize,
    pub kind: u8,
    pub size: u8,
    pub after: u8,
    pub sign: u8,
    pub optional: bool,
    pub multivalued: bool,
    pub strategy: u8,
}

pub fn is_max(p: PropertyAt) -> bool
    ensures { result ≡ has_max p }
{
    p.strategy == MAX
}

// Strategy min or max.
pub fn is_extreme(p: PropertyAt) -> bool
    ensures { result ≡ has_extreme p }
{
    p.strategy == MIN || p.strategy == MAX
}

pub fn is_replace(p: PropertyAt) -> bool
    ensures { result ≡ has_replace p }
{
    p.strategy == REPLACE
}

pub fn is_match(p: PropertyAt) -> bool
    ensures { result ≡ has_match p }
{
    p.strategy == MATCH
}

fn read_strategy(table: &[u8], at: usize) -> Option<(u64, usize)>
    ensures { NumberReads (such_that (is_within (strategy_number min) (strategy_number any)) read_number (drop at table.now))
        table.now at result }
{
    read_within(table, at, MIN as u64, ANY as u64)
}

// All of a property but its name, as one number: a byte for each of its numbers, and a bit for each of its flags.
#[tactic(auto, unfolding(crate::specs::code::TypeIndex::bit_of))]
fn code_of(p: PropertyAt) -> usize
    ensures { result ≡ code_of p }
{
    p.kind as usize
        + 256 * p.size as usize
        + 65536 * p.after as usize
        + 16777216 * p.sign as usize
        + 4294967296 * p.strategy as usize
        + 1099511627776 * p.optional as usize
        + 2199023255552 * p.multivalued as usize
}

// The properties of a type are lent as 96 numbers, three for each: where its name starts and ends, and all else as one number.
pub fn property_at(properties: &[usize], k: usize) -> PropertyAt
    requires { (length properties.now ≡ 96) × (k < 32) }
    ensures { result ≡ property_in properties.now k }
{
    let code = properties[3 * k + 2];
    PropertyAt {
        start: properties[3 * k],
        end: properties[3 * k + 1],
        kind: (code % 256) as u8,
        size: (code / 256 % 256) as u8,
        after: (code / 65536 % 256) as u8,
        sign: (code / 16777216 % 256) as u8,
        optional: code / 1099511627776 % 2 == 1,
        multivalued: code / 2199023255552 % 2 == 1,
        strategy: (code / 4294967296 % 256) as u8,
    }
}

pub fn put_property(properties: &mut [usize], k: usize, p: PropertyAt)
    requires { (length properties.old ≡ 96) × (k < 32) }
    ensures here { property_in properties.new k ≡ p }
    ensures others { (j : ℕ) → (j ≡ k → ⊥) → property_in properties.new j ≡ property_in properties.old j }
{
    properties[3 * k] = p.start;
    properties[3 * k + 1] = p.end;
    properties[3 * k + 2] = code_of(p);
}

// A property and the position after it.
pub fn read_property(table: &[u8], at: usize) -> Option<(PropertyAt, usize)>
    ensures { PropertyReads (read_property (drop at table.now)) table.now at result }
{
    let TextAt { start, end } = read_name(table, at, 32)?;
    let (k, after_kind) = read_kind(table, end)?;
    let (optional, after_optional) = read_flag(table, after_kind)?;
    let (multivalued, after_multivalued) = read_flag(table, after_optional)?;
    let (strategy, after_strategy) = read_strategy(table, after_multivalued)?;
    let p = PropertyAt {
        start,
        end,
        kind: k.kind,
        size: k.size,
        after: k.after,
        sign: k.sign,
        optional,
        multivalued,
        strategy: strategy as u8,
    };
    Some((p, after_strategy))
}
