// CHECK constraints.
ghost use Rattle.std.specs.Prelude.{◌≡◌, [], option_map};
ghost use Rattle.std.specs.List.{filter_map};
ghost use Rattle.delta_schema.specs.Types.{behind};
ghost use Rattle.row_rules.specs.Answers.{Reads};
ghost use Rattle.row_rules.specs.Rules as spec;
ghost use Rattle.row_rules.specs.Texts as texts;

use crate::columns::unsupported;
use crate::fault::RuleFault;
use crate::rules::{CheckRule, CheckRules};
use crate::texts::{check_of, seen_by_checks};
use delta_schema::ColumnDef;
use dm_types::Text;
use std::alloc::Global;
use typed_expr::Scope;

/// The rules of the constraints among properties, or the first that has no condition.
pub(crate) fn check_rules(
    alloc: Global,
    columns: &[ColumnDef],
    configuration: &[(Text, Text)],
) -> Result<CheckRules, RuleFault>
    ensures { Reads (spec.each (spec.check_rule (texts.seen_by_checks columns.now)) []
        (filter_map spec.constraint_of configuration.now)) result }
{
    let scope = seen_by_checks(alloc, columns)?;
    let mut rules = CheckRules::new(alloc);
    for property in configuration {
        let Some(name) = constraint_name(&property.0) else {
            continue;
        };
        let rule = check_rule(alloc, &scope, name, &property.1)?;
        rules.push(rule)?;
    }
    Ok(rules)
}

// The name of the constraint that a property is.
fn constraint_name(property: &Text) -> Option<&str>
    ensures { option_map (λ name. name.now) result ≡ behind spec.constraint_prefix property.entry.now }
{
    property.as_str().strip_prefix("delta.constraints.")
}

// The rule of a constraint.
fn check_rule(alloc: Global, scope: &Scope, name: &str, text: &Text) -> Result<CheckRule, RuleFault>
    ensures { Reads (spec.check_rule scope.now (name.now, text.now)) result }
{
    let name = Text::from_str(alloc, name)?;
    match check_of(alloc, scope, text)? {
        Some(condition) => Ok(CheckRule { name, condition }),
        None => Err(RuleFault::Unsupported { name }),
    }
}
