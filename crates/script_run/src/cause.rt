// How a refusal is printed.
ghost use Rattle.std.specs.Prelude.{◌≡◌, ◌++◌, IfOk, OnOk, codes};
ghost use Rattle.std.specs.Fmt.{decimal, signed_decimal};
ghost use Rattle.dm_types.specs.declared.refusal.TableRefusal.TheVariants as table;
ghost use Rattle.script_run.specs.Refusals as spec;
ghost use Rattle.dm_text.specs.Printing.{field as field_of};

use dm_text::print_field;
use dm_types::{
    Bytes, Counted, DataType, PutRefusal, Refused, StatementRefusal, TableRefusal, Text, Value,
};
use std::alloc::{AllocError, Global};

/// The code of a refusal, and its fields behind it: numbers in decimal, texts as fields.
pub(crate) fn cause_of(alloc: Global, why: &Refused) -> Result<Bytes, AllocError>
    ensures { IfOk result (λ cause. cause ≡ spec.refused_cause why.now) }
{
    match why {
        Refused::Table(refusal) => table_cause(alloc, refusal),
        Refused::Statement(refusal) => statement_cause(alloc, refusal),
        Refused::Put(refusal) => put_cause(alloc, refusal),
    }
}

fn table_cause(alloc: Global, refusal: &TableRefusal) -> Result<Bytes, AllocError>
    ensures { IfOk result (λ cause. cause ≡ spec.table_cause refusal.now) }
{
    match refusal {
        TableRefusal::NoTable => Bytes::from_slice(alloc, b"O1"),
        TableRefusal::LogGap { version } => with_number(alloc, "O2", *version),
        TableRefusal::BadAction { version, line } => with_numbers(alloc, "O3", *version, *line),
        TableRefusal::ProtocolUnsupported { reader, writer } => {
            with_numbers(alloc, "O4", u64::from(*reader), u64::from(*writer))
        }
        TableRefusal::UnknownFeature { name } => with_text(alloc, "O5", name),
        TableRefusal::NoMetadata => Bytes::from_slice(alloc, b"O6"),
        TableRefusal::BadSchema => Bytes::from_slice(alloc, b"O7"),
        TableRefusal::UnsupportedType { column } => with_text(alloc, "O8", column),
        TableRefusal::BadMapping { column } => with_text(alloc, "O9", column),
        TableRefusal::DeletionVector { path } => with_text(alloc, "O10", path),
        TableRefusal::BadPath { path } => with_text(alloc, "O11", path),
        TableRefusal::MissingFile { path } => with_text(alloc, "O12", path),
        TableRefusal::BadParquet { path } => with_text(alloc, "O13", path),
        TableRefusal::CompressedPage { path } => with_text(alloc, "O14", path),
        TableRefusal::UnsupportedEncoding { path } => with_text(alloc, "O15", path),
        TableRefusal::ColumnMismatch { path, column } => with_texts(alloc, "O16", path, column),
        TableRefusal::ValueRange { path, column } => with_texts(alloc, "O17", path, column),
        TableRefusal::BadPartitionValue { path, column } => with_texts(alloc, "O18", path, column),
        TableRefusal::RowIdsWrong { id } => with_whole(alloc, "O19", *id),
        TableRefusal::TooLarge { counted } => too_large(alloc, *counted),
        TableRefusal::NoSuchVersion { version } => with_number(alloc, "O21", *version),
        TableRefusal::UnsupportedRule { name } => with_text(alloc, "O22", name),
    }
}

fn too_large(alloc: Global, counted: Counted) -> Result<Bytes, AllocError>
    ensures { IfOk result (λ cause. cause ≡ spec.table_cause (table.TooLarge counted)) }
{
    match counted {
        Counted::Commits => Bytes::from_slice(alloc, b"O20 commits"),
        Counted::Columns => Bytes::from_slice(alloc, b"O20 columns"),
        Counted::Cells => Bytes::from_slice(alloc, b"O20 cells"),
        Counted::TextBytes => Bytes::from_slice(alloc, b"O20 text"),
    }
}

fn statement_cause(alloc: Global, refusal: &StatementRefusal) -> Result<Bytes, AllocError>
    ensures { IfOk result (λ cause. cause ≡ spec.statement_cause refusal.now) }
{
    match refusal {
        StatementRefusal::TableExists => Bytes::from_slice(alloc, b"S1"),
        StatementRefusal::BadDefinition { at } => with_number(alloc, "S2", *at),
        StatementRefusal::DoesNotType { rule, at } => {
            with_numbers(alloc, "S3", u64::from(*rule), *at)
        }
        StatementRefusal::AppendOnly => Bytes::from_slice(alloc, b"S4"),
        StatementRefusal::RowTrackingOff => Bytes::from_slice(alloc, b"S5"),
        StatementRefusal::IdentityWrite { column } => with_text(alloc, "S6", column),
        StatementRefusal::EvalError { kind } => with_number(alloc, "S7", u64::from(*kind)),
        StatementRefusal::SecondMatch => Bytes::from_slice(alloc, b"S8"),
        StatementRefusal::IdentityOverflow { column } => with_text(alloc, "S9", column),
        StatementRefusal::GeneratedMismatch { column } => with_text(alloc, "S10", column),
        StatementRefusal::NotNull { column } => with_text(alloc, "S11", column),
        StatementRefusal::CheckFailed { name } => with_text(alloc, "S12", name),
        StatementRefusal::RowIdsExhausted => Bytes::from_slice(alloc, b"S13"),
        StatementRefusal::FeedOff { version } => with_number(alloc, "S14", *version),
        StatementRefusal::FeedSchemaChanged { version } => with_number(alloc, "S15", *version),
    }
}

fn put_cause(alloc: Global, refusal: &PutRefusal) -> Result<Bytes, AllocError>
    ensures { IfOk result (λ cause. cause ≡ spec.put_cause refusal.now) }
{
    match refusal {
        PutRefusal::NameTaken { path } => with_text(alloc, "S16", path),
        PutRefusal::VersionTaken { version } => with_number(alloc, "S17", *version),
    }
}

// A code and a number.
fn with_number(alloc: Global, code: &str, number: u64) -> Result<Bytes, AllocError>
    ensures { IfOk result (λ cause. cause ≡ code.now ++ codes " " ++ decimal number) }
{
    let cause = format!(in alloc; "{code} {number}")?;
    Ok(Bytes::from_vec(cause.into_bytes()))
}

// A code and a whole number, which may be negative.
fn with_whole(alloc: Global, code: &str, number: i64) -> Result<Bytes, AllocError>
    ensures { IfOk result (λ cause. cause ≡ code.now ++ codes " " ++ signed_decimal number) }
{
    let cause = format!(in alloc; "{code} {number}")?;
    Ok(Bytes::from_vec(cause.into_bytes()))
}

// A code and two numbers.
fn with_numbers(alloc: Global, code: &str, first: u64, second: u64) -> Result<Bytes, AllocError>
    ensures { IfOk result (λ cause. cause ≡ code.now ++ codes " " ++ decimal first ++ codes " " ++ decimal second) }
{
    let mut cause = with_number(alloc, code, first)?;
    let second = format!(in alloc; " {second}")?;
    cause.extend_from_slice(second.as_bytes())?;
    Ok(cause)
}

// A code and a text.
fn with_text(alloc: Global, code: &str, text: &Text) -> Result<Bytes, AllocError>
    ensures { IfOk result (λ cause. cause ≡ code.now ++ codes " " ++ field_of text.now) }
{
    let mut cause = Bytes::from_slice(alloc, code.as_bytes())?;
    push_text(alloc, &mut cause, text)?;
    Ok(cause)
}

// A code and two texts.
fn with_texts(alloc: Global, code: &str, first: &Text, second: &Text) -> Result<Bytes, AllocError>
    ensures { IfOk result (λ cause. cause ≡ spec.cell_cause code.now first.now second.now) }
{
    let mut cause = with_text(alloc, code, first)?;
    push_text(alloc, &mut cause, second)?;
    Ok(cause)
}

// Adds a space and a text.
fn push_text(alloc: Global, cause: &mut Bytes, text: &Text) -> Result<(), AllocError>
    ensures { OnOk result (cause.new ≡ cause.old ++ codes " " ++ field_of text.now) }
{
    cause.push(b' ')?;
    let field = Value::Text(Text::from_str(alloc, text.as_str())?);
    print_field(&field, &DataType::Str, cause)
}
