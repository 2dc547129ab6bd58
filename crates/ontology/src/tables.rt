ghost use Rattle.std.specs.Prelude.{ℕ, ◌≤◌, ◌≡◌, List, [], ◌∷◌, ◌++◌, length, None};
ghost use Rattle.replies.specs.Replies.{table_replied};
ghost use Rattle.ontology.specs.Table.{EventType, type_named};
ghost use Rattle.ontology.specs.TableLayout.{table_of};
ghost use Rattle.ontology.specs.TableCall.{table_call};
ghost use Rattle.ontology.specs.code.TypeIndex.{TypeIs, TypeSays, TableSays};

use crate::types::{TypeIndex, read_type};
use packed::order::{is_before, same};
use packed::read::{TextAt, read_within};
use replies::reply::Refusal;

// The type that was found, or else x where that is the first of the name.
fn keep(found: Option<TypeIndex>, table: &[u8], name: &[u8], x: TypeIndex) -> Option<TypeIndex>
    requires { (x.start ≤ x.end) × (x.end ≤ length table.now) }
    ensures { (ts : List EventType) (t : EventType) (ps : List ℕ) → TypeSays (type_named name.now ts) table.now ps found
        → (found ≡ None → TypeIs table.now t x ps)
        → TypeSays (type_named name.now (ts ++ (t ∷ []))) table.now ps result }
{
    if found.is_none() && same(name, &table[x.start..x.end]) {
        return Some(x);
    }
    found
}

// Reads the table once: checks every rule, and keeps the index of the type of that name, if the table has it. Until that type is found each type is read into
// `properties`; the properties of those after it are not kept, so that its own stay.
pub fn read_table(table: &[u8], name: &[u8], properties: &mut [usize]) -> Option<Option<TypeIndex>>
    requires { length properties.old ≡ 96 }
    ensures { TableSays (table_of table.now) table.now name.now properties.new result }
{
    let (count, after_count) = read_within(table, 0, 1, 16)?;
    let mut found = None;
    let mut at = after_count;
    // the first name comes after the empty one
    let mut last = TextAt { start: 0, end: 0 };
    for _ in 0..count {
        let (x, next) = read_type(table, at, found.is_none(), properties)?;
        if !is_before(table, last.start, last.end, x.start, x.end) {
            return None;
        }
        found = keep(found, table, name, x);
        last = TextAt {
            start: x.start,
            end: x.end,
        };
        at = next;
    }
    if at == table.len() { Some(found) } else { None }
}

pub fn check_table(table: &[u8]) -> Result<(), Refusal>
    ensures { table_replied result ≡ table_call table.now }
{
    let mut properties = [0usize; 96];
    read_table(table, &table[0..0], &mut properties).ok_or(Refusal::BadTable)?;
    Ok(())
}
