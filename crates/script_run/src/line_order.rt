// Lines in byte order.
ghost use Rattle.std.specs.Prelude.{◌≡◌, map};
ghost use Rattle.dm_types.specs.Order.{in_byte_order};

/// Sorts lines by their bytes.
pub(crate) fn sort_lines(lines: &mut Vec<Vec<u8>>)
    ensures { map (λ line. line.items) lines.new.items ≡ in_byte_order (map (λ line. line.items) lines.old.items) }
{
    lines.sort_unstable();
}
