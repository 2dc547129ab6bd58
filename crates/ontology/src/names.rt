ghost use Rattle.std.specs.Prelude.{◌≡◌, drop};
ghost use Rattle.packed.specs.Parse.{such_that};
ghost use Rattle.packed.specs.Packed.{read_text};
ghost use Rattle.packed.specs.code.Located.{NameReads};
ghost use Rattle.ontology.specs.Table.{is_letter, is_name_byte, are_name_bytes, is_name_within};

use packed::read::{TextAt, read_text};

#[tactic(auto, unfolding(crate::specs::Table::is_letter))]
fn is_letter(b: u8) -> bool
    ensures { result ≡ is_letter b }
{
    matches!(b, b'a'..=b'z')
}

// Most bytes of a name are letters, which have a test of their own: one `matches!` of all ranges makes the reading of a table half as fast.
#[tactic(auto, unfolding(crate::specs::Table::is_name_byte, crate::specs::Table::is_letter))]
fn is_name_byte(b: u8) -> bool
    ensures { result ≡ is_name_byte b }
{
    is_letter(b) || matches!(b, b'0'..=b'9' | b'-' | b'.')
}

fn are_name_bytes(v: &[u8]) -> bool
    ensures { result ≡ are_name_bytes v.now }
{
    v.iter().all(|b| is_name_byte(*b))
}

// Whether v is a name of 1 byte to `most`.
fn is_name(v: &[u8], most: usize) -> bool
    ensures { result ≡ is_name_within most v.now }
{
    match v {
        [] => false,
        [first, rest @ ..] => v.len() <= most && is_letter(*first) && are_name_bytes(rest),
    }
}

// The name of 1 byte to `most` at position `at`.
pub fn read_name(s: &[u8], at: usize, most: usize) -> Option<TextAt>
    ensures { NameReads (such_that (is_name_within most) read_text (drop at s.now)) s.now at result }
{
    let name = read_text(s, at)?;
    is_name(&s[name.start..name.end], most).then_some(name)
}
