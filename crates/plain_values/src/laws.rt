// What bytes mean in PLAIN, and what is read and written.
ghost use Rattle.std.specs.Prelude.{◌≡◌, ◌++◌, ℕ, List};
ghost use Rattle.plain_values.specs.Meaning.{AreBytes, Judges, whole_at};

use crate::plain::Plain;

/// A law: bytes are read as the values that they mean; `Extra` says that values stand at their front
/// and bytes are left; `Short` says that so many values are no front of them.
pub fn plain_judges<T: Plain>()
    ensures { (length count : ℕ) (bytes : List ℕ) → AreBytes bytes
        → Judges T.count_of (T.means length) count bytes (T.plain_of length count bytes) }
{}

/// A law: bytes that mean values are read as these, and with others behind them as `Extra`.
pub fn plain_again<T: Plain>()
    ensures { (length : ℕ) (values : T.Values) (bytes rest : List ℕ) → T.means length values bytes
        → T.plain_of length (T.count_of values) (bytes ++ rest) ≡ whole_at values rest }
{}
