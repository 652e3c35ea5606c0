ghost use Rattle.cov_v8.specs.Rows.{ReadAs, Worked, Odd};

/// What small files are read to, and what they tell of small sources.
pub fn worked_rows()
    ensures read_as { ReadAs }
    ensures worked { Worked }
    ensures odd { Odd }
{}
