// Lists of paths and names.
ghost use Rattle.std.specs.Prelude.{◌≡◌, ◌++◌, List, ℕ, IfOk};
ghost use Rattle.std.specs.List.{IsDistinct};
ghost use Rattle.std.specs.Str.{bytes_eq};
ghost use Rattle.dm_store.specs.Files as spec;

use dm_types::{Text, TextList};
use std::alloc::AllocError;

/// Whether a text is in the list.
pub fn is_among(wanted: &str, texts: &[Text]) -> bool
    ensures { result ≡ spec.is_among wanted.now texts.now }
{
    texts.iter().any(|text| wanted == text.as_str())
}

/// The texts, and copies of the others behind them.
pub fn joined(texts: TextList, others: &[Text]) -> Result<TextList, AllocError>
    ensures { IfOk result (λ all. all ≡ texts ++ others.now) }
{
    let mut all = texts;
    for other in others {
        all.push(other.clone()?)?;
    }
    Ok(all)
}

/// The texts, each once, in byte order.
pub fn each_once(texts: TextList) -> TextList
    ensures distinct { IsDistinct bytes_eq result }
    ensures same { (text : List ℕ) → spec.is_among text result ≡ spec.is_among text texts }
{
    let mut texts = texts.into_vec();
    texts.sort_unstable();
    texts.dedup();
    TextList::from_vec(texts)
}
