//! Which lines are kept.

ghost use Rattle.std.specs.Prelude.{◌≡◌, ◌↔◌, IsTrue};
ghost use Rattle.globset.specs.SetValue.{set_globs};
ghost use Rattle.glob_answers.specs.Selection.{IsChosen, IsKept};

use globset::{Candidate, Searcher};

/// Returns whether a line is kept: some of the globs has to match it, and none of the exceptions. With `inverted` the others are
/// kept.
///
/// Globs match as in a set, so `**/..` matches nothing.
pub fn is_kept(
    globs: &mut Searcher,
    exceptions: &mut Searcher,
    inverted: bool,
    line: &Candidate<'_>,
) -> bool
    ensures kept { IsTrue result
        ↔ IsKept (set_globs globs.old.set) (set_globs exceptions.old.set) inverted line.now }
    ensures globs { globs.new.set ≡ globs.old.set }
    ensures exceptions { exceptions.new.set ≡ exceptions.old.set }
{
    let is_chosen = is_chosen(globs, exceptions, line);
    if inverted { !is_chosen } else { is_chosen }
}

/// Returns whether some of the globs matches a line, and none of the exceptions.
fn is_chosen(globs: &mut Searcher, exceptions: &mut Searcher, line: &Candidate<'_>) -> bool
    ensures chosen { IsTrue result
        ↔ IsChosen (set_globs globs.old.set) (set_globs exceptions.old.set) line.now }
    ensures globs { globs.new ≡ globs.old }
    ensures exceptions { exceptions.new ≡ exceptions.old }
{
    if !globs.is_match(line) {
        return false;
    }
    !exceptions.is_match(line)
}
