// Laws of the grammar: what `begins` and the place of a fault come to.
ghost use Rattle.std.specs.Prelude.{◌≡◌, ◌≤◌, ℕ, true, List, [], ◌++◌, length, All};
ghost use Rattle.token_lang.specs.Lang.{one, both, either, valued};
ghost use Rattle.token_lang.specs.Exact.{IsLongest, Same};
ghost use Rattle.sql_grammar.specs.Grammar as grammar;
ghost use Rattle.sql_grammar.specs.Due.{HasTablesWhereDue};
ghost use Rattle.sql_grammar.specs.Held.{HoldsExpr};
ghost use Rattle.sql_grammar.specs.Open.{opens_at_most};
ghost use Rattle.sql_grammar.specs.Statements as statements;
ghost use Rattle.sql_grammar.specs.Statements.{HoldsStmt};
ghost use Rattle.sql_grammar.specs.Tree as tree;
ghost use Rattle.sql_lex.specs.Content.{AreMeant};
ghost use Rattle.sql_lex.specs.Stand.{AreParts};
ghost use Rattle.sql_lex.specs.declared.lexer.Before.TheVariants as before;
ghost use Rattle.sql_tree.specs.Kinds.{any, names_alone, dates};
ghost use Rattle.sql_tree.specs.declared.token.Token.{Token};
ghost use Rattle.sql_tree.specs.declared.tree.Expr.{Expr};
ghost use Rattle.sql_statements.specs.declared.Stmt.{Stmt};

use sql_tree::Kind;

/// A law: a script within the limits of its expressions is a script with the same statements, and
/// an expression within the limits is the same expression.
pub fn limits_only_refuse()
    ensures scripts { (bytes : List ℕ) (tokens : List Token) (all : List Stmt) →
        (statements.script bytes).reads tokens all [] → (statements.any_script bytes).reads tokens all [] }
    ensures expressions { (bytes : List ℕ) (tokens : List Token) (expr : Expr) →
        (grammar.expression bytes).reads tokens expr [] → (grammar.any_expr bytes).reads tokens expr [] }
{}

/// A law: the limits refuse what passes them, and nothing else: an expression of the grammar is one
/// within the limits exactly where it has at most 1,000 tokens, and at most 64 brackets and CASEs
/// open at once.
pub fn limits_are_exact()
    ensures within { (bytes : List ℕ) (tokens : List Token) (expr : Expr) →
        (grammar.any_expr bytes).reads tokens expr [] →
        length tokens ≤ 1000 → opens_at_most 64 tokens ≡ true → (grammar.expression bytes).reads tokens expr [] }
    ensures kept { (bytes : List ℕ) (tokens : List Token) (expr : Expr) →
        (grammar.expression bytes).reads tokens expr [] →
        (length tokens ≤ 1000) × (opens_at_most 64 tokens ≡ true) }
{}

/// A law: what begins a script, or an expression, within the limits goes on to one without them.
pub fn beginnings_go_on()
    ensures scripts { (bytes : List ℕ) (front : List Token) → (statements.script bytes).begins front [] →
        (more : List Token) × (all : List Stmt) × (statements.any_script bytes).reads (front ++ more) all [] }
    ensures expressions { (bytes : List ℕ) (front : List Token) → (grammar.expression bytes).begins front [] →
        (more : List Token) × (expr : Expr) × (grammar.any_expr bytes).reads (front ++ more) expr [] }
{}

/// A law: without the limits, what begins a script is the front of one, and each front of a script
/// begins one.
pub fn beginnings_are_fronts_of_scripts()
    ensures go_on { (bytes : List ℕ) (front : List Token) → (statements.any_script bytes).begins front [] →
        (more : List Token) × (all : List Stmt) × (statements.any_script bytes).reads (front ++ more) all [] }
    ensures begin { (bytes : List ℕ) (front more : List Token) (all : List Stmt) → (statements.any_script bytes).reads
        (front ++ more) all [] → (statements.any_script bytes).begins front [] }
{}

/// A law: without the limits, what begins an expression is the front of one, and each front of an
/// expression begins one.
pub fn beginnings_are_fronts_of_expressions()
    ensures go_on { (bytes : List ℕ) (front : List Token) → (grammar.any_expr bytes).begins front [] →
        (more : List Token) × (expr : Expr) × (grammar.any_expr bytes).reads (front ++ more) expr [] }
    ensures begin { (bytes : List ℕ) (front more : List Token) (expr : Expr) → (grammar.any_expr bytes).reads
        (front ++ more) expr [] → (grammar.any_expr bytes).begins front [] }
{}

/// A law: each front of a script, or of an expression, within the limits begins one.
pub fn fronts_begin()
    ensures scripts { (bytes : List ℕ) (front more : List Token) (all : List Stmt) → (statements.script bytes).reads
        (front ++ more) all [] → (statements.script bytes).begins front [] }
    ensures expressions { (bytes : List ℕ) (front more : List Token) (expr : Expr) → (grammar.expression bytes).reads
        (front ++ more) expr [] → (grammar.expression bytes).begins front [] }
{}

/// A law: each front of what begins a script, or an expression, begins one, so the end of the
/// longest beginning is the first place at which none goes on.
pub fn places_are_first()
    ensures scripts { (bytes : List ℕ) (front more rest : List Token) → (statements.script bytes).begins (front ++
        (more ++ rest)) rest → (statements.script bytes).begins (front ++ (more ++ rest)) (more ++ rest) }
    ensures expressions { (bytes : List ℕ) (front more rest : List Token) → (grammar.expression bytes).begins
        (front ++ (more ++ rest)) rest → (grammar.expression bytes).begins (front ++ (more ++ rest)) (more ++ rest) }
{}

/// A law: there is one such place.
pub fn places_are_one()
    ensures scripts { (bytes : List ℕ) (tokens rest other : List Token)
        → IsLongest (statements.script bytes) tokens rest
        → IsLongest (statements.script bytes) tokens other → rest ≡ other }
    ensures expressions { (bytes : List ℕ) (tokens rest other : List Token) → IsLongest
        (grammar.expression bytes) tokens rest → IsLongest (grammar.expression bytes) tokens other → rest ≡ other }
{}

/// A law: where the grammar takes out a common front, it derives what it does with the front written
/// twice. A name is a column, `name ["." name]`, or a call, `name "(" .. ")"`; DATE and TIMESTAMP
/// stand before a text, or are names; a NOT stands before BETWEEN or before IN; a SHOW stands before
/// FILES or before ROWS.
pub fn common_fronts()
    ensures names { (bytes : List ℕ) (depth : ℕ) → let arguments = grammar.arguments bytes depth
        (grammar.inside bytes depth) in
        Same (grammar.named bytes depth (grammar.inside bytes depth))
        (either (valued (tree.named bytes) (both (one (any names_alone))
        (grammar.maybe (valued (tree.qualified bytes) (both (grammar.token Kind.Dot) grammar.name)))))
        (valued (λ p. tree.named bytes (p.0, Some p.1)) (both (one (any names_alone)) arguments))) }
    ensures dates { (bytes : List ℕ) (depth : ℕ) → let tail = grammar.tail bytes depth (grammar.inside bytes depth) in
        Same (grammar.dated bytes depth (grammar.inside bytes depth))
        (either (valued (tree.named bytes) (both (one (any dates))
        (grammar.maybe (valued (tree.dated bytes) grammar.text))))
        (valued (λ p. tree.named bytes (p.0, Some p.1)) (both (one (any dates)) tail))) }
    ensures ranges { (bytes : List ℕ) (depth : ℕ) → let inside = grammar.inside bytes depth in
        Same (grammar.range bytes depth inside)
        (either (valued tree.maybe_not (both (grammar.maybe (grammar.token Kind.Not))
        (grammar.between bytes depth inside)))
        (valued tree.maybe_not (both (grammar.maybe (grammar.token Kind.Not)) (grammar.among bytes depth inside)))) }
    ensures shows { (bytes : List ℕ) → let expression = grammar.expression bytes in
        Same (statements.show_of bytes expression)
        (either (valued grammar.second (both (grammar.token Kind.Show) (statements.show_files_of bytes expression)))
        (valued grammar.second (both (grammar.token Kind.Show) (statements.show_rows_of bytes expression)))) }
{}

/// A law: of tokens that stand in the bytes and mean what their kinds say, the grammar makes trees
/// that the bytes hold: each part is there, and each name, text and number is that of its bytes.
pub fn trees_are_held()
    ensures scripts { (bytes : List ℕ) (tokens : List Token) (all : List Stmt) → AreMeant bytes tokens → AreParts 0
        (length bytes) tokens →
        (statements.script bytes).reads tokens all [] → All (HoldsStmt bytes) all }
    ensures expressions { (bytes : List ℕ) (tokens : List Token) (expr : Expr) → AreMeant bytes tokens → AreParts 0
        (length bytes) tokens →
        (grammar.expression bytes).reads tokens expr [] → HoldsExpr bytes expr }
{}

/// A law: in a script of the grammar a token is a table exactly where one is due by the tokens
/// before it.
pub fn tables_stand_where_due()
    ensures { (bytes : List ℕ) (tokens : List Token) (all : List Stmt) → (statements.script bytes).reads tokens all []
        → HasTablesWhereDue before.Start tokens }
{}
