// The metadata of a field.
ghost use Rattle.std.specs.Prelude.{◌≡◌, ◌++◌, ◌&&◌, true, IfOk, OnOk, is_some};
ghost use Rattle.serde_json.specs.Find.{as_object};
ghost use Rattle.serde_json.specs.View.{view, members_view};
ghost use Rattle.serde_json.specs.Written.{compact_text};
ghost use Rattle.delta_schema.specs.Metadata.{is_whole as is_whole_data, is_kept as is_kept_name, are_whole_members, identity_of, rule_of, other_members as other_members_of, others_of};
ghost use Rattle.delta_schema.specs.StepsReading.{Gives, other_of};

use crate::fault::Fault;
use crate::members::kept;
use crate::schema::IdentityRule;
use dm_types::{Items, Text, TextPairs};
use serde_json::{Map, Value};
use std::alloc::{AllocError, Global};

/// Whether each number at any depth is kept as an integer, in the range of an i64.
pub(crate) fn is_whole(value: &Value) -> bool
    ensures { result ≡ is_whole_data (view value.now) }
{
    match value {
        Value::Number(number) => number.as_i64().is_some(),
        Value::Array(items) => {
            for item in items {
                if !is_whole(item) {
                    return false;
                }
            }
            true
        }
        Value::Object(members) => {
            for (_name, member) in members.iter() {
                if !is_whole(member) {
                    return false;
                }
            }
            true
        }
        _ => true,
    }
}

/// Whether the value is an object whose numbers are whole.
pub(crate) fn is_metadata(value: &Value) -> bool
    ensures { result ≡ (is_some (as_object (view value.now)) && is_whole_data (view value.now)) }
{
    value.is_object() && is_whole(value)
}

fn rule(
    start: Option<i64>,
    step: Option<i64>,
    mark: Option<i64>,
    explicit: Option<bool>,
) -> Option<IdentityRule>
    ensures { result ≡ rule_of start step mark explicit }
{
    let start = start?;
    let step = step?;
    let explicit = explicit?;
    if step == 0 {
        return None;
    }
    Some(IdentityRule {
        start,
        step,
        mark,
        explicit,
    })
}

/// The identity of a column, if it has one.
pub(crate) fn identity(alloc: Global, metadata: &Value) -> Result<Option<IdentityRule>, Fault>
    ensures { Gives (identity_of (view metadata.now)) result }
{
    let start = kept(alloc, metadata, "delta.identity.start")?;
    let step = kept(alloc, metadata, "delta.identity.step")?;
    let mark = kept(alloc, metadata, "delta.identity.highWaterMark")?;
    let explicit = kept(alloc, metadata, "delta.identity.allowExplicitInsert")?;
    Ok(rule(start, step, mark, explicit))
}

// Whether a column keeps the member of this name by itself.
fn is_kept(identity: bool, name: &str) -> bool
    ensures { result ≡ is_kept_name identity name.now }
{
    match name {
        "delta.generationExpression"
        | "delta.invariants"
        | "delta.columnMapping.id"
        | "delta.columnMapping.physicalName" => true,
        "delta.identity.start"
        | "delta.identity.step"
        | "delta.identity.highWaterMark"
        | "delta.identity.allowExplicitInsert" => identity,
        _ => false,
    }
}

#[tactic(auto, using(crate::proofs::Whole::no_float))]
fn compact(alloc: Global, value: &Value) -> Result<Text, AllocError>
    requires { is_whole_data (view value.now) ≡ true }
    ensures { IfOk result (λ text. text ≡ compact_text (view value.now)) }
{
    let text = value.to_string(alloc)?;
    Text::from_str(alloc, text.as_str())
}

// Adds a member, unless the column keeps it by itself.
fn add_other(
    alloc: Global,
    identity: bool,
    name: &str,
    value: &Value,
    others: &mut TextPairs,
) -> Result<(), AllocError>
    requires { is_whole_data (view value.now) ≡ true }
    ensures { OnOk result (others.new ≡ others.old ++ other_of identity name.now (view value.now)) }
{
    if !is_kept(identity, name) {
        let name = Text::from_str(alloc, name)?;
        others.push((name, compact(alloc, value)?))?;
    }
    Ok(())
}

fn other_members(
    alloc: Global,
    identity: bool,
    members: &Map<String, Value>,
) -> Result<TextPairs, AllocError>
    requires { are_whole_members (members_view members.now.entries) ≡ true }
    ensures { IfOk result (λ others. others ≡ other_members_of identity (members_view members.now.entries)) }
{
    let mut others = Items::new(alloc);
    for (name, member) in members.iter() {
        add_other(alloc, identity, name.as_str(), member, &mut others)?;
    }
    Ok(others)
}

/// The members that the column doesn't keep by themselves, as compact JSON.
pub(crate) fn others(
    alloc: Global,
    identity: bool,
    metadata: &Value,
) -> Result<TextPairs, AllocError>
    requires { is_whole_data (view metadata.now) ≡ true }
    ensures { IfOk result (λ others. others ≡ others_of identity (view metadata.now)) }
{
    match metadata.as_object() {
        Some(members) => other_members(alloc, identity, members),
        None => Ok(Items::new(alloc)),
    }
}
