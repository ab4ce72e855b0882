// Numbers of rows and of units: the LIMIT of a SELECT, and what a FETCH or a STEP asks for.
ghost use Rattle.std.specs.Prelude.{◌≡◌, true, false, IfNone, IfSome};
ghost use Rattle.sasi_types.specs.declared.literal.Number.TheVariants.{Fits};
ghost use Rattle.sasi_model.specs.Filters.{row_limit};
ghost use Rattle.sasi_model.specs.Refusals.{is_count, limit_range};
ghost use Rattle.sasi_model.specs.Sessions.{count_asked};

use sasi_types::Number;

/// Whether a LIMIT is given, and isn't a number of rows.
pub fn is_out_of_range(limit: Option<Number>) -> bool
    ensures { result ≡ (limit_range limit).0 }
{
    match limit {
        None => false,
        Some(Number::Fits(rows)) => !is_count(rows),
        Some(Number::Wide) => true,
    }
}

fn is_count(rows: i128) -> bool
    ensures { result ≡ is_count (Fits rows) }
{
    1 <= rows && rows <= i128::from(i32::MAX)
}

/// How many rows it allows, where one is given.
pub fn row_limit(limit: Option<Number>) -> Option<u64>
    requires { (limit_range limit).0 ≡ false }
    ensures { result ≡ row_limit limit }
{
    match limit {
        Some(Number::Fits(rows)) => Some(rows as u64),
        Some(Number::Wide) | None => None,
    }
}

/// How many rows a FETCH asks for, or units a STEP; None where a rule refuses the number.
pub fn count_asked(count: Number) -> Option<u32>
    ensures some { IfSome result (λ rows. (is_count count ≡ true) × (rows ≡ count_asked count)) }
    ensures none { IfNone result (is_count count ≡ false) }
{
    match count {
        Number::Fits(rows) if is_count(rows) => Some(rows as u32),
        Number::Fits(_) | Number::Wide => None,
    }
}
