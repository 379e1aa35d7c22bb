// A law on the texts of rules.
ghost use Rattle.std.specs.Prelude.{◌≡◌, ◌↔◌, ℕ, List, [], Some};
ghost use Rattle.row_rules.specs.Texts.{expression_of};
ghost use Rattle.sql_grammar.specs.Grammar.{expression};
ghost use Rattle.sql_lex.specs.Tokens.{tokens};
ghost use Rattle.sql_tree.specs.declared.tree.Expr.{Expr};

/// A law: the expression that a text is, is the one that the grammar derives from its tokens.
pub fn reading_is_exact()
    ensures { (text : List ℕ) (x : Expr) →
        (expression text).reads (tokens text) x [] ↔ (expression_of text ≡ Some x) }
{}
