ghost use Rattle.std.specs.Prelude.{◌≡◌, ◌<◌, false, length, slice_index_or};
ghost use Rattle.gn_uses.specs.Sets.{rows_of, row, with_flag};

/// Sets a flag of a row.
pub(crate) fn set_flag(rows: &mut Vec<Vec<bool>>, number: usize, at: usize)
    requires row { number < length rows.old.items }
    requires at { at < length (row (rows_of rows.old.items) number) }
    ensures { rows_of rows.new.items ≡ with_flag (rows_of rows.old.items) number at }
{
    rows[number][at] = true;
}

/// A flag of a row; past the last row or its last flag it isn't set.
pub(crate) fn flag_of(rows: &[Vec<bool>], number: usize, at: usize) -> bool
    ensures { result ≡ slice_index_or (row (rows_of rows.now) number) at false }
{
    match rows.get(number) {
        Some(row) => row.get(at).copied().unwrap_or(false),
        None => false,
    }
}

/// The flags of a row; none where there is no such row.
pub(crate) fn flags_of(rows: &[Vec<bool>], number: usize) -> &[bool]
    ensures { result.now ≡ row (rows_of rows.now) number }
{
    match rows.get(number) {
        Some(row) => row.as_slice(),
        None => &[],
    }
}
