//! Words from tables.
ghost use Rattle.std.specs.Prelude.{◌≡◌, map, option_map};
ghost use Rattle.ipmi_events.specs.Table.{table_from_one, words_at};

/// The table entry of a reserved code.
pub(crate) const RESERVED: &str = "";

/// The words at an index of a table, if the standard has any.
pub(crate) fn words_at(table: &[&'static str], at: u8) -> Option<&'static str>
    ensures { option_map (λ s. s.now) result ≡ words_at (map (λ s. s.now) table.now) at }
{
    let words = table.get(usize::from(at)).copied()?;
    if words.is_empty() { None } else { Some(words) }
}

/// The table of a code, from tables that begin with code 1. An empty table if there is none.
pub(crate) fn table_from_one(
    tables: &[&'static [&'static str]],
    code: u8,
) -> &'static [&'static str]
    ensures { map (λ s. s.now) result.now
        ≡ table_from_one (map (λ t. map (λ s. s.now) t.now) tables.now) code }
{
    let Some(at) = usize::from(code).checked_sub(1) else {
        return &[];
    };
    tables.get(at).copied().unwrap_or(&[])
}
