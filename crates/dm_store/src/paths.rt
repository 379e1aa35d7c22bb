// The names of paths in a folder.
ghost use Rattle.std.specs.Prelude.{◌≡◌};
ghost use Rattle.std.specs.Option.{option_copied};
ghost use Rattle.dm_store.specs.Files as spec;

/// The name of a path directly below a folder.
pub fn name_below<'a>(dir: &str, path: &'a str) -> Option<&'a str>
    ensures { option_copied result ≡ spec.name_below dir.now path.now }
{
    let bytes = path.as_bytes();
    let end = dir.len();
    if end < bytes.len()
        && &bytes[..end] == dir.as_bytes()
        && bytes[end] == b'/'
        && !bytes[end + 1..].contains(&b'/')
    {
        Some(&path[end + 1..])
    } else {
        None
    }
}
