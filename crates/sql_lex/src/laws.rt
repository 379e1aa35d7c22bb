// What tokens are to their bytes.
ghost use Rattle.std.specs.Prelude.{◌≡◌, ℕ, List, length, All, not};
ghost use Rattle.sql_lex.specs.Content.{AreMeant, SpellsName, SpellsText, name_of, text_of};
ghost use Rattle.sql_lex.specs.Signs.{IsLongest, sign, signs};
ghost use Rattle.sql_lex.specs.Stand.{StandIn, AreParts};
ghost use Rattle.sql_lex.specs.Tokens.{tokens};
ghost use Rattle.sql_lex.specs.Words.{is_reserved, word_kind};
ghost use Rattle.sql_tree.specs.Kinds.{names};
ghost use Rattle.sql_tree.specs.declared.token.Token.{Token};

/// A law: the tokens stand in the bytes one after the other, each as the bytes there and the tokens
/// before it say, and between them is nothing but white space and comments; and no other tokens do.
pub fn tokens_stand()
    ensures stand { (bytes : List ℕ) → StandIn bytes (tokens bytes) }
    ensures alone { (bytes : List ℕ) (others : List Token) → StandIn bytes others → others ≡ tokens bytes }
{}

/// A law: each token has a byte at least, and ends within the bytes and before the next begins.
pub fn spans_ascend()
    ensures { (bytes : List ℕ) → AreParts 0 (length bytes) (tokens bytes) }
{}

/// A law: the bytes of each token, taken alone, are a name, a text, a number, bytes or a table's name,
/// as its kind says; the number of a token of the kind `Whole` is below 2^63.
pub fn tokens_mean()
    ensures { (bytes : List ℕ) → AreMeant bytes (tokens bytes) }
{}

/// A law: a reserved word, in either case, is no name, and every other word is one.
pub fn reserved_words_are_no_names()
    ensures { (word : List ℕ) → names (word_kind word) ≡ not (is_reserved word) }
{}

/// A law: the sign that is read is the longest that stands there.
pub fn signs_are_longest()
    ensures { (bytes : List ℕ) → All (IsLongest bytes (sign bytes).len) signs }
{}

/// A law: the name that is read of bytes is the one that they spell, and bytes that spell a name are
/// read as it.
pub fn names_spelled()
    ensures spelled { (bytes name : List ℕ) → name_of bytes ≡ Some name → SpellsName bytes name }
    ensures again { (bytes name : List ℕ) → SpellsName bytes name → name_of bytes ≡ Some name }
{}

/// A law: the text that is read of bytes is the one that they spell in quotes, and bytes that spell a
/// text are read as it.
pub fn texts_spelled()
    ensures spelled { (bytes text : List ℕ) → text_of bytes ≡ Some text → SpellsText bytes text }
    ensures again { (bytes text : List ℕ) → SpellsText bytes text → text_of bytes ≡ Some text }
{}
