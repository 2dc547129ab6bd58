ghost use Rattle.std.specs.Prelude.{drop};
ghost use Rattle.ontology.specs.TableLayout.{read_flag};
ghost use Rattle.ontology.specs.code.TypeIndex.{FlagReads};

use packed::read::read_within;

// A flag, 0 or 1, and the position after it.
pub fn read_flag(s: &[u8], at: usize) -> Option<(bool, usize)>
    ensures { FlagReads (read_flag (drop at s.now)) s.now at result }
{
    let (n, next) = read_within(s, at, 0, 1)?;
    Some((n == 1, next))
}
