// Why pieces are refused.
ghost use Rattle.std.specs.Prelude.{◌≡◌, None, Some, IfNone, IfSome};
ghost use Rattle.sasi_model.specs.Abbreviations.{refusal_number};
ghost use Rattle.sasi_machine.specs.Refusal.{name_in, option_shown, refusal_of, words_in};

use sasi_schema::Limit;
use sasi_types::{Name, Text};

/// Why a piece is refused.
#[derive(Drop)]
pub enum Refusal {
    /// The offset at which the piece stops being a statement.
    Syntax(usize),
    StatementTooLong,
    /// The length of the longest prefix that is UTF-8.
    NotUtf8(usize),
    NoTable(Name),
    TableExists(Name),
    NoColumn(Name),
    ColumnRepeated(Name),
    WrongType(Name),
    NumberRange(Name),
    /// The LIMIT isn't a number of rows.
    LimitRange,
    KeyMissing(Name),
    KeyEmpty(Name),
    ValueTooLong(Name),
    /// The name of the index that is there.
    IndexExists(Name),
    /// The option, as it is written.
    BadOption(Text),
    /// The class behind USING.
    BadUsing,
    /// The column that can't have such an index.
    ModeType(Name),
    /// The column, which doesn't take the relation.
    OperatorUnsupported(Name),
    /// The column of a LIKE that asks for nothing.
    LikeEmpty(Name),
    /// ALLOW FILTERING isn't said.
    NeedsFiltering,
    TimestampRange,
    ClockSpent,
    TooMany(Limit),
    TooManyRelations,
    /// The cursor whose name is taken.
    CursorExists(Name),
    /// The name of no open cursor.
    NoCursor(Name),
    TooManyCursors,
    /// The FETCH doesn't ask for a number of rows.
    FetchRange,
    /// The STEP doesn't ask for a number of units.
    StepRange,
    ScriptEnds,
    NotBuilt,
}

impl Refusal {
    /// The number in its line.
    pub fn number(&self) -> u32
        ensures { result ≡ refusal_number (refusal_of self.now) }
    {
        match self {
            Refusal::Syntax(_) => 1,
            Refusal::StatementTooLong => 2,
            Refusal::NotUtf8(_) => 3,
            Refusal::NoTable(_) => 4,
            Refusal::TableExists(_) => 5,
            Refusal::NoColumn(_) => 6,
            Refusal::ColumnRepeated(_) => 7,
            Refusal::WrongType(_) => 8,
            Refusal::NumberRange(_)
            | Refusal::LimitRange
            | Refusal::FetchRange
            | Refusal::StepRange => 9,
            Refusal::KeyMissing(_) => 10,
            Refusal::KeyEmpty(_) => 11,
            Refusal::ValueTooLong(_) => 12,
            Refusal::IndexExists(_) => 13,
            Refusal::BadOption(_) | Refusal::BadUsing => 15,
            Refusal::ModeType(_) => 16,
            Refusal::OperatorUnsupported(_) => 17,
            Refusal::LikeEmpty(_) => 18,
            Refusal::NeedsFiltering => 19,
            Refusal::TimestampRange => 20,
            Refusal::ClockSpent => 21,
            Refusal::CursorExists(_) => 22,
            Refusal::NoCursor(_) => 23,
            Refusal::TooMany(_) | Refusal::TooManyRelations | Refusal::TooManyCursors => 24,
            Refusal::ScriptEnds => 25,
            Refusal::NotBuilt => 90,
        }
    }

    /// The name that its line ends with, or the option.
    pub(crate) fn name(&self) -> Option<&[u8]>
        ensures some { IfSome result (λ name. name_in self.now ≡ Some name.now) }
        ensures none { IfNone result (name_in self.now ≡ None) }
    {
        match self {
            Refusal::NoTable(name)
            | Refusal::TableExists(name)
            | Refusal::NoColumn(name)
            | Refusal::ColumnRepeated(name)
            | Refusal::WrongType(name)
            | Refusal::NumberRange(name)
            | Refusal::KeyMissing(name)
            | Refusal::KeyEmpty(name)
            | Refusal::ValueTooLong(name)
            | Refusal::IndexExists(name)
            | Refusal::ModeType(name)
            | Refusal::OperatorUnsupported(name)
            | Refusal::LikeEmpty(name)
            | Refusal::CursorExists(name)
            | Refusal::NoCursor(name) => Some(name.bytes()),
            Refusal::BadOption(option) => shown(option.bytes()),
            Refusal::Syntax(_)
            | Refusal::NotUtf8(_)
            | Refusal::StatementTooLong
            | Refusal::LimitRange
            | Refusal::BadUsing
            | Refusal::NeedsFiltering
            | Refusal::TimestampRange
            | Refusal::ClockSpent
            | Refusal::TooMany(_)
            | Refusal::TooManyRelations
            | Refusal::TooManyCursors
            | Refusal::FetchRange
            | Refusal::StepRange
            | Refusal::ScriptEnds
            | Refusal::NotBuilt => None,
        }
    }

    /// The words that its line ends with, where it is always the same; else none.
    pub(crate) fn words(&self) -> &'static str
        ensures { result.now ≡ words_in self.now }
    {
        match self {
            Refusal::StatementTooLong => "1048576",
            Refusal::LimitRange => "LIMIT",
            Refusal::BadUsing => "using",
            Refusal::TooMany(Limit::Tables) => "tables 256",
            Refusal::TooMany(Limit::Columns) => "columns 64",
            Refusal::TooManyRelations => "relations 32",
            Refusal::TooManyCursors => "cursors 64",
            Refusal::FetchRange => "FETCH",
            Refusal::StepRange => "STEP",
            _ => "",
        }
    }
}

// An option that is an empty text isn't shown.
fn shown(option: &[u8]) -> Option<&[u8]>
    ensures some { IfSome result (λ shown. option_shown option.now ≡ Some shown.now) }
    ensures none { IfNone result (option_shown option.now ≡ None) }
{
    match option {
        [] => None,
        option => Some(option),
    }
}
