ghost use Rattle.js_data.specs.Rows as rows;

/// Does nothing. Its contract is a table of calls, and what ECMA-262 has them answer.
pub fn rows_hold()
    ensures made { rows.Made }
    ensures units_at { rows.UnitsAt }
    ensures searches { rows.Searches }
    ensures parts { rows.Parts }
    ensures numerals { rows.Numerals }
    ensures mathematics { rows.Mathematics }
{}
