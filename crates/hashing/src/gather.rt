ghost use Rattle.std.specs.Prelude.{◌+◌, ◌≤◌, ◌≡◌, List, map, length};
ghost use Rattle.model.specs.Order.{Text, texts};
ghost use Rattle.model.specs.Sorting.{sorted};
ghost use Rattle.packed.specs.Packed.{part};
ghost use Rattle.packed.specs.code.Strings.{strings_of, strings_in, StringsFit};
ghost use Rattle.event.specs.code.EventIndex.{SetIs};
ghost use Rattle.hashing.specs.HashText.{object_string, object_strings};
ghost use Rattle.hashing.specs.code.HashIndex.{Gathered, Gatherable};

use event::sets::{SetAt, set_at};
use ontology::properties::{is_match, property_at};
use packed::read::{TextAt, read_text};
use packed::strings::{StringAt, insert_string};

// Adds to the first `count` objects those of one property more, whose name stands in the table from `name` up to `colon`, and answers how many they are then.
fn gather_set(
    table: &[u8],
    event: &[u8],
    name: usize,
    colon: usize,
    set: SetAt,
    objects: &mut [usize],
    count: usize,
) -> usize
    requires { StringsFit table.now event.now (strings_in objects.old) count × (name ≤ colon) × (colon ≤ length table.now)
        × (count + set.count ≤ 32) × (length objects.old ≡ 128) }
    ensures fit { StringsFit table.now event.now (strings_in objects.new) result }
    ensures gathered { (vs : List Text) → SetIs event.now vs set
        → Gathered table.now event.now (strings_in objects.old) count (strings_in objects.new) result
        (map (object_string (part table.now name colon)) vs) }
{
    let mut at = set.start;
    let all = count + set.count;
    for n in count..all {
        let Some(TextAt { start, end }) = read_text(event, at) else {
            return n;
        };
        let x = StringAt {
            first: name,
            colon,
            second: start,
            end,
        };
        insert_string(table, event, objects, n, x);
        at = end;
    }
    all
}

// Puts the objects of all match properties, sorted, at the first places of `objects`, and answers how many they are.
pub fn gather(
    table: &[u8],
    event: &[u8],
    count: usize,
    properties: &[usize],
    sets: &[usize],
    objects: &mut [usize],
) -> usize
    requires { Gatherable table.now event.now count properties.now sets.now × (length properties.now ≡ 96) × (length sets.now ≡ 96)
        × (length objects.old ≡ 128) }
    ensures fit { StringsFit table.now event.now (strings_in objects.new) result }
    ensures result_after { (h : Gatherable table.now event.now count properties.now sets.now)
        → strings_of table.now event.now (strings_in objects.new) result
        ≡ sorted texts (object_strings h.properties h.sets) }
{
    let mut n: usize = 0;
    for place in 0..count {
        let p = property_at(properties, place);
        if is_match(p) {
            n = gather_set(
                table,
                event,
                p.start,
                p.end,
                set_at(sets, place),
                objects,
                n,
            );
        }
    }
    n
}
