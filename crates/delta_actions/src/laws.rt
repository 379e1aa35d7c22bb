// What the meaning of a commit gives line by line.
ghost use Rattle.std.specs.Prelude.{◌≡◌, ℕ, Ok, Err, List};
ghost use Rattle.std.specs.List.{All};
ghost use Rattle.delta_actions.specs.Meaning.{commit_of, lines};
ghost use Rattle.delta_actions.specs.Places.{IsFirstBad, AreGood};
ghost use Rattle.delta_actions.specs.Writable.{HasForm};
ghost use Rattle.delta_actions.specs.declared.action.Action.{Action as AnAction};

/// A law: the line that is named is the first that is bad.
pub fn first_bad_line()
    ensures { (bytes : List ℕ) → (line : ℕ) → commit_of bytes ≡ Err line → IsFirstBad (lines bytes) line }
{}

/// A law: no line is bad, and the actions are those of the lines in turn.
pub fn good_lines()
    ensures { (bytes : List ℕ) → (found : List AnAction) → commit_of bytes ≡ Ok found
        → AreGood (lines bytes) found }
{}

/// A law: what is read has the form of its kind, so that it can be written again: pairs are in byte
/// order of their names, each name once, and a domain that tracks rows has a mark.
pub fn good_forms()
    ensures { (bytes : List ℕ) → (found : List AnAction) → commit_of bytes ≡ Ok found → All HasForm found }
{}
