// A sheet that was read: a view of the caller's own words, lawful as long as it exists.
ghost use Rattle.std.specs.Prelude.{◌≡◌, true, length, is_ok};
ghost use Rattle.sheet.specs.Decoding.{tree_of};
ghost use Rattle.sheet.specs.Survey.{survey};

use crate::survey::Counts;

#[derive(Clone, Copy)]
pub struct Sheet<'a> {
    pub(crate) words: &'a [u32],
    pub(crate) counts: Counts,
    ghost lawful: { is_ok (survey words.now) ≡ true },
    ghost facts_counted: { counts.facts ≡ (tree_of words.now).facts },
    ghost steps_counted: { counts.steps ≡ length (tree_of words.now).steps },
    ghost goals_counted: { counts.goals ≡ length (tree_of words.now).goals },
}
