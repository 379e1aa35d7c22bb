// Logical types, from their trees.
ghost use Rattle.std.specs.Prelude.{◌≡◌};
ghost use Rattle.parquet_meta.specs.Gives.{Gives};
ghost use Rattle.parquet_meta.specs.Forms.{struct};
ghost use Rattle.parquet_meta.specs.Logicals.{decimal_of, unit_by, unit_of, number_of, timestamp_of, scale_of};
ghost use Rattle.parquet_meta.specs.Logicals.{unit_number, logical_by, logical_of};

use crate::fault::MetaFault;
use crate::forms::{Form, Shape, checked, last_among, optional, struct_in};
use crate::metadata::Logical;
use crate::numbers::{MICROS, MILLIS, NANOS, NO_UNIT};
use std::alloc::Global;
use thrift_compact::{Node, Tree};

/// What is kept of a `DecimalType`.
#[derive(Clone, Copy)]
pub(crate) struct DecimalType {
    pub(crate) scale: i32,
}

/// What is kept of a `TimeUnit`.
#[derive(Clone, Copy)]
pub(crate) struct TimeUnit {
    pub(crate) number: u8,
}

/// What is kept of a `TimestampType`.
#[derive(Clone, Copy)]
pub(crate) struct TimestampType {
    pub(crate) unit: u8,
}

fn decimal(alloc: Global, tree: &Tree) -> Result<DecimalType, MetaFault>
    ensures { Gives (decimal_of tree.now) result }
{
    let scale: Option<i32> = optional(alloc, tree, 1)?;
    checked(tree, 2, Shape::I32)?;
    Ok(DecimalType {
        scale: scale.unwrap_or(0),
    })
}

impl Form for DecimalType {
    ghost form = { struct decimal_of };

    fn read(alloc: Global, _width: u8, node: &Node) -> Result<DecimalType, MetaFault> {
        match struct_in(node) {
            Some(tree) => decimal(alloc, tree),
            None => Err(MetaFault::BadFooter),
        }
    }
}

fn number_by(member: Option<i16>) -> u8
    ensures { result ≡ unit_by member }
{
    match member {
        None => NO_UNIT,
        Some(1) => MILLIS,
        Some(2) => MICROS,
        Some(_) => NANOS,
    }
}

fn unit(tree: &Tree) -> Result<TimeUnit, MetaFault>
    ensures { Gives (unit_of tree.now) result }
{
    checked(tree, 1, Shape::Struct)?;
    checked(tree, 2, Shape::Struct)?;
    checked(tree, 3, Shape::Struct)?;
    let member = last_among(tree, &[1, 2, 3]);
    Ok(TimeUnit {
        number: number_by(member),
    })
}

impl Form for TimeUnit {
    ghost form = { struct unit_of };

    fn read(_alloc: Global, _width: u8, node: &Node) -> Result<TimeUnit, MetaFault> {
        match struct_in(node) {
            Some(tree) => unit(tree),
            None => Err(MetaFault::BadFooter),
        }
    }
}

fn number(unit: Option<TimeUnit>) -> u8
    ensures { result ≡ number_of unit }
{
    match unit {
        None => NO_UNIT,
        Some(unit) => unit.number,
    }
}

fn timestamp(alloc: Global, tree: &Tree) -> Result<TimestampType, MetaFault>
    ensures { Gives (timestamp_of tree.now) result }
{
    checked(tree, 1, Shape::Bool)?;
    let unit: Option<TimeUnit> = optional(alloc, tree, 2)?;
    Ok(TimestampType { unit: number(unit) })
}

impl Form for TimestampType {
    ghost form = { struct timestamp_of };

    fn read(alloc: Global, _width: u8, node: &Node) -> Result<TimestampType, MetaFault> {
        match struct_in(node) {
            Some(tree) => timestamp(alloc, tree),
            None => Err(MetaFault::BadFooter),
        }
    }
}

/// The logical type by the id of its last known member.
fn by_member(
    member: Option<i16>,
    decimal: Option<DecimalType>,
    timestamp: Option<TimestampType>,
) -> Logical
    ensures { result ≡ logical_by member decimal timestamp }
{
    match member {
        None => Logical::Other,
        Some(1) => Logical::Str,
        Some(5) => Logical::Decimal {
            scale: match decimal {
                None => 0,
                Some(decimal) => decimal.scale,
            },
        },
        Some(6) => Logical::Date,
        Some(_) => Logical::Timestamp {
            unit: match timestamp {
                None => NO_UNIT,
                Some(timestamp) => timestamp.unit,
            },
        },
    }
}

fn logical(alloc: Global, tree: &Tree) -> Result<Logical, MetaFault>
    ensures { Gives (logical_of tree.now) result }
{
    checked(tree, 1, Shape::Struct)?;
    let decimal = optional(alloc, tree, 5)?;
    checked(tree, 6, Shape::Struct)?;
    let timestamp = optional(alloc, tree, 8)?;
    let member = last_among(tree, &[1, 5, 6, 8]);
    Ok(by_member(member, decimal, timestamp))
}

impl Form for Logical {
    ghost form = { struct logical_of };

    fn read(alloc: Global, _width: u8, node: &Node) -> Result<Logical, MetaFault> {
        match struct_in(node) {
            Some(tree) => logical(alloc, tree),
            None => Err(MetaFault::BadFooter),
        }
    }
}
