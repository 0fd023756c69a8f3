//! The table of refusals.

ghost use Rattle.std.specs.Prelude.{◌≡◌, find, map, option_map};
ghost use Rattle.std.specs.Str.{bytes_eq};
ghost use Rattle.refusal_rows.specs.Rows as rows;

use crate::rows::ROWS;

/// A refusal's number, in digits, and its text: a line for its number and name, and one each for
/// when it comes, what it leaves, and what to do.
pub(crate) type Row = (&'static str, &'static str);

/// The rows of all refusals.
fn all_rows() -> &'static [Row]
    ensures { map (λ row. (row.0.now, row.1.now)) result.now ≡ rows.spelled_rows }
{
    ROWS
}

/// The row that has a number, where one of these has it.
fn row_of<'a>(table: &'a [Row], number: &str) -> Option<&'a Row>
    ensures { option_map (λ row. row.now) result
        ≡ find (λ row. bytes_eq row.0.now number.now) table.now }
{
    table.iter().find(|row| row.0 == number)
}

/// The text of the row that has a number, where one of these has it.
fn text_in(table: &[Row], number: &str) -> Option<&'static str>
    ensures { option_map (λ text. text.now) result
        ≡ rows.text_in (map (λ row. (row.0.now, row.1.now)) table.now) number.now }
{
    match row_of(table, number) {
        None => None,
        Some(row) => Some(row.1),
    }
}

/// The text of the refusal that has this number, written in digits, where one has.
pub fn text_of(number: &str) -> Option<&'static str>
    // Not proved: that the rows are those of `REFUSALS.md`: `refusal_rows.py` looks it up.
    ensures { option_map (λ text. text.now) result ≡ rows.text_of number.now }
{
    text_in(all_rows(), number)
}
