//! Columns of texts: how many are before the first character, and texts without some of them (2.2 Tabs).
ghost use Rattle.std.specs.Prelude.{◌≡◌, ◌+◌, ◌-◌, ◌*◌, ◌^◌, ◌<◌, ◌≤◌, ◌++◌};
ghost use Rattle.std.specs.Prelude.{ℕ, drop, take, length, replicate, string_bytes, true, List};
ghost use Rattle.std.specs.Str.{IsCharBoundary};
ghost use Rattle.cm_text.specs.Indentation.{indent_from, blank_width, strip_from};
ghost use Rattle.cm_text.specs.LineText.{tabs};

/// The columns before the first character of a text that is neither space nor tab, from this column.
pub(crate) fn indent_from(column: usize, text: &str) -> usize
    requires { column + length text.now + 3 * tabs text.now < 2 ^ 64 }
    ensures value { result ≡ indent_from column text.now }
    ensures fits { column + result < 2 ^ 64 }
{
    let mut indent = 0;
    for b in text.as_bytes() {
        match *b {
            b' ' => indent += 1,
            b'\t' => indent += 4 - (column + indent) % 4,
            _ => return indent,
        }
    }
    indent
}

/// Removes up to `n` columns from a text that starts at this column. Returns the column after them, the
/// number of columns that a cut tab leaves there, and the number of bytes removed.
pub(crate) fn take_columns(n: usize, column: usize, text: &str) -> (usize, usize, usize)
    requires { column + length text.now + 3 * tabs text.now < 2 ^ 64 }
    ensures taken { strip_from n column text.now
        ≡ (result.0, replicate result.1 32 ++ drop result.2 text.now) }
    ensures boundary { IsCharBoundary text.now result.2 }
    ensures few { result.1 ≤ 3 }
{
    let mut column = column;
    let mut left = n;
    let mut taken = 0;
    for b in text.as_bytes() {
        // Most indentation is spaces.
        if *b == b' ' && left > 0 {
            column += 1;
            left -= 1;
            taken += 1;
            continue;
        }
        let width = blank_width(column, *b);
        if left == 0 || width == 0 {
            break;
        }
        taken += 1;
        if left < width {
            return (column + left, width - left, taken);
        }
        column += width;
        left -= width;
    }
    (column, 0, taken)
}

fn blank_width(column: usize, b: u8) -> usize
    ensures { result ≡ blank_width column b }
{
    match b {
        b' ' => 1,
        b'\t' => 4 - column % 4,
        _ => 0,
    }
}
