//! Laws of the table. Each function does nothing: its contract is the law.

ghost use Rattle.refusal_rows.specs.Laws as law;

/// Each refusal of the program has a text under its number, whose first line is the number and the
/// refusal's name.
pub fn each_refusal_has_its_row()
    // Proved: Each refusal of the program has a row, under its number and with its name, and is
    // found by its number.
    // By `text_of`.
    ensures { law.EachHasItsRow }
{}
