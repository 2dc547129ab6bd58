ghost use Rattle.std.specs.Prelude.{◌≤◌, ◌-◌, ◌≡◌, List, [], length, drop};
ghost use Rattle.model.specs.Order.{Text};
ghost use Rattle.unions.specs.code.Runs.{Run, Heads};

use packed::read::{TextAt, read_text};

// What a run has its values as: texts, or hashes of 20 bytes.
#[derive(Clone, Copy)]
pub enum Form {
    Texts,
    Hashes,
}

// The first value of a run that goes on at position `at`: where its own bytes start and end.
pub fn head_at(form: Form, s: &[u8], at: usize) -> Option<TextAt>
    ensures { Heads form s.now at result }
{
    match form {
        Form::Texts => read_text(s, at),
        Form::Hashes => {
            let end = at.checked_add(20)?;
            (end <= s.len()).then_some(TextAt { start: at, end })
        }
    }
}

// How many values a run has from position `at` on. Each takes a byte at least.
pub fn count_rest(form: Form, s: &[u8], at: usize) -> usize
    requires { at ≤ length s.now }
    ensures few { result ≤ length s.now - at }
    ensures all { (xs : List Text) → Run form (drop at s.now) xs [] → result ≡ length xs }
{
    let mut i = at;
    let mut n: usize = 0;
    while let Some(TextAt { end, .. }) = head_at(form, s, i) {
        i = end;
        n += 1;
    }
    n
}
