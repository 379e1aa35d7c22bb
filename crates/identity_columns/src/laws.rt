// Which value of an identity column comes next.
ghost use Rattle.std.specs.Prelude.{◌≡◌, ◌≢◌, ℕ, ◌+◌, ◌<◌, ◌++◌, pos};
ghost use Rattle.identity_columns.specs.Values.{IsFirst, first_place, next_values, marked};
ghost use Rattle.delta_schema.specs.declared.schema.IdentityRule.{IdentityRule as ARule};

/// A law: the next value is the first beyond the mark.
pub fn first_is_least()
    ensures { (rule : ARule) → rule.step ≢ pos 0 → IsFirst rule (first_place rule) }
{}

/// A law: where the last value that was made becomes the mark, the values that follow go on without a
/// gap, and none is given again.
pub fn values_go_on()
    ensures { (rule : ARule) (some more : ℕ) → rule.step ≢ pos 0 → 0 < some
        → next_values rule (some + more) ≡ next_values rule some ++ next_values (marked rule some) more }
{}
