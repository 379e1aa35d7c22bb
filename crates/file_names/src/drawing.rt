// Drawing a name, and the text of what was drawn.
ghost use Rattle.std.specs.Prelude.{◌≡◌, IfOk};
ghost use Rattle.dm_store.specs.Causes.{Counts, DrawCause};
ghost use Rattle.file_names.specs.Names.{DrawsName, name_of};

use dm_store::NameSource;
use dm_types::{Stop, Text};
use std::alloc::{AllocError, Global};
use uuid::{Builder, Uuid};

/// The one draw of a write statement: sixteen bytes.
///
/// A draw that fails stops the statement with [`Stop::Names`].
pub fn draw<N: NameSource>(names: &mut N) -> Result<[u8; 16], Stop>
    ensures given { DrawsName (N.given names.old) (N.given names.new) result }
    ensures draws { Counts DrawCause (N.faults names.old) (N.faults names.new) result }
{
    match names.draw() {
        Ok(name) => Ok(name),
        Err(_) => Err(Stop::Names),
    }
}

/// The text of what was drawn: the UUID of version 4 that has the drawn bytes in place of random ones
/// (RFC 9562, sections 4 and 5.4), in lower-case digits and with its hyphens.
#[tactic(auto, unfolding(crate::specs::Names::name_of))]
pub fn name_text(alloc: Global, drawn: &[u8; 16]) -> Result<Text, AllocError>
    ensures { IfOk result (λ text. text ≡ name_of drawn.now) }
{
    let id = Builder::from_random_bytes(*drawn).into_uuid();
    let mut buffer = Uuid::encode_buffer();
    let text = id.hyphenated().encode_lower(&mut buffer);
    Text::from_str(alloc, text)
}
