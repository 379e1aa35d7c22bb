// Rules that are broken, and which of them is told.
ghost use Rattle.std.specs.Prelude.{◌≡◌, Err, IfOk};
ghost use Rattle.typed_expr.specs.declared.fault.TypeFault.TheVariants.{Rule};
ghost use Rattle.typed_expr.specs.Rules as spec;

use crate::fault::TypeFault;
use sqlite_items::Items;
use std::alloc::AllocError;

/// A rule of the language that an expression breaks, as the clauses of the calls speak of it.
#[derive(Clone, Copy)]
pub struct Broken {
    /// The number of the rule.
    pub rule: u8,
    /// The byte of the script where it is broken, counted from 0.
    pub at: u64,
}

/// What a form comes to, or the rule that is broken in it.
pub type Typing<T> = Result<T, Broken>;

impl From<Broken> for TypeFault {
    ghost use Rattle.std.specs.Prelude.{◌≡◌};
    ghost use Rattle.typed_expr.specs.declared.fault.TypeFault.TheVariants.{Rule};

    ghost from_gives = { λ broken e. e ≡ Rule broken.rule broken.at };

    fn from(broken: Broken) -> TypeFault {
        TypeFault::Rule {
            rule: broken.rule,
            at: broken.at,
        }
    }
}

pub(crate) fn breaks<T>(rule: u8, at: usize) -> Typing<T>
    ensures { result ≡ spec.breaks rule at }
{
    Err(Broken {
        rule,
        at: at as u64,
    })
}

// The same, of a call that takes memory.
pub(crate) fn refuse<T>(rule: u8, at: usize) -> Result<T, TypeFault>
    ensures { result ≡ Err (Rule rule at) }
{
    Err(TypeFault::Rule {
        rule,
        at: at as u64,
    })
}

// What isn't there breaks a rule.
pub(crate) fn given<T: Drop>(rule: u8, at: usize, found: Option<T>) -> Typing<T>
    ensures { result ≡ spec.given rule at found }
{
    match found {
        Some(found) => Ok(found),
        None => breaks(rule, at),
    }
}

// The one at the lesser place, and there of the lesser rule.
fn sooner(broken: Broken, other: Broken) -> Broken
    ensures { result ≡ spec.sooner broken other }
{
    if other.at < broken.at || other.at == broken.at && other.rule < broken.rule {
        other
    } else {
        broken
    }
}

/// Both parts, or the sooner of what is broken in them: at the lesser place, and there the lesser rule.
pub fn both<A: Drop, B: Drop>(part: Typing<A>, other: Typing<B>) -> Typing<(A, B)>
    ensures { result ≡ spec.both part other }
{
    match (part, other) {
        (Ok(part), Ok(other)) => Ok((part, other)),
        (Err(broken), Err(other)) => Err(sooner(broken, other)),
        (Err(broken), Ok(_)) | (Ok(_), Err(broken)) => Err(broken),
    }
}

/// A part behind those that were found, or the sooner of what is broken in them.
pub fn collected<T: Drop>(
    found: Typing<Items<T>>,
    part: Typing<T>,
) -> Result<Typing<Items<T>>, AllocError>
    ensures { IfOk result (λ all. all ≡ spec.collected found part) }
{
    match both(found, part) {
        Ok((mut found, part)) => {
            found.push(part)?;
            Ok(Ok(found))
        }
        Err(broken) => Ok(Err(broken)),
    }
}

/// What is broken, apart from want of memory.
pub fn split<T>(answer: Result<T, TypeFault>) -> Result<Typing<T>, AllocError>
    ensures { result ≡ spec.split_of answer }
{
    match answer {
        Ok(found) => Ok(Ok(found)),
        Err(TypeFault::Rule { rule, at }) => Ok(Err(Broken { rule, at })),
        Err(TypeFault::Memory) => Err(AllocError),
    }
}
