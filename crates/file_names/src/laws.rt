// What is known of the text of what was drawn.
ghost use Rattle.std.specs.Prelude.{◌≡◌, ℕ, List, length, All, true};
ghost use Rattle.file_names.specs.Names.{name_of, is_name_byte};

/// A law: the text of what was drawn has 36 bytes, each of them a hyphen or a lower-case hexadecimal
/// digit.
pub fn names_are_plain()
    ensures { (drawn : List ℕ) → (length (name_of drawn) ≡ 36)
        × All (λ b. is_name_byte b ≡ true) (name_of drawn) }
{}
