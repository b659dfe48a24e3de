ghost use Rattle.std.specs.Prelude.{◌≡◌, bytes_eq};
ghost use Rattle.std.specs.List.{list_any};

/// Whether the bytes are an entry of a table.
pub fn is_in_table(table: &[&[u8]], bytes: &[u8]) -> bool
    ensures { result ≡ list_any (λ entry. bytes_eq entry.now bytes.now) table.now }
{
    table.iter().any(|entry| *entry == bytes)
}
