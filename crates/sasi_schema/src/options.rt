// The options of an index: which a column can have, and how they are read.
ghost use Rattle.std.specs.Prelude.{◌≡◌, ◌&&◌, ◌||◌, map, not};
ghost use Rattle.std.specs.Char.{to_ascii_lowercase};
ghost use Rattle.std.specs.Option.{option_copied};
ghost use Rattle.sasi_model.specs.Indexes.{class_given, class_named, index_class, is_allowed, is_flag, keeps_whole, mode_fits, mode_given, mode_named, option_is, option_value, rule_by, rule_given, splits};
ghost use Rattle.sasi_model.specs.Tokens.{lower_byte, same};

use sasi_types::{Class, ColumnType, Mode, Rule, Text};

// The class behind USING.
const INDEX_CLASS: &[u8] = b"org.apache.cassandra.index.sasi.SASIIndex";

// The options.
const MODE: &[u8] = b"mode";

const ANALYZER_CLASS: &[u8] = b"analyzer_class";

const ANALYZED: &[u8] = b"analyzed";

const CASE_SENSITIVE: &[u8] = b"case_sensitive";

const LOWERCASE: &[u8] = b"tokenization_normalize_lowercase";

const STEMMING: &[u8] = b"tokenization_enable_stemming";

// Their values.
const TRUE: &[u8] = b"true";

const FALSE: &[u8] = b"false";

const NON_TOKENIZING: &[u8] = b"org.apache.cassandra.index.sasi.analyzer.NonTokenizingAnalyzer";

const STANDARD: &[u8] = b"org.apache.cassandra.index.sasi.analyzer.StandardAnalyzer";

/// Whether this is the class that an index can have.
pub fn is_index_class(class: &[u8]) -> bool
    ensures { result ≡ same class.now index_class }
{
    class == INDEX_CLASS
}

/// The value of the first option of a name.
pub fn option_value<'a>(name: &[u8], options: &'a [(Text, Text)]) -> Option<&'a Text>
    ensures { option_copied result ≡ option_value name.now options.now }
{
    for option in options {
        if name == option.0.bytes() {
            return Some(&option.1);
        }
    }
    None
}

/// The mode, which is PREFIX where none is named.
pub fn mode_given(options: &[(Text, Text)]) -> Mode
    ensures { result ≡ mode_given options.now }
{
    match option_value(MODE, options) {
        Some(name) => mode_named(name.bytes()).unwrap_or(Mode::Prefix),
        None => Mode::Prefix,
    }
}

/// The class of analyzer, None where an unknown one is named.
pub fn class_given(options: &[(Text, Text)]) -> Option<Class>
    ensures { result ≡ class_given options.now }
{
    match option_value(ANALYZER_CLASS, options) {
        Some(name) => class_named(name.bytes()),
        None => Some(Class::NonTokenizing),
    }
}

/// How the terms of a column of this type are made; None for a number.
pub fn rule_given(kind: ColumnType, options: &[(Text, Text)]) -> Option<Rule>
    ensures { result ≡ rule_given kind options.now }
{
    match kind {
        ColumnType::Text => Some(rule_by(class_given(options)?, options)),
        ColumnType::Int | ColumnType::BigInt | ColumnType::Uuid => None,
    }
}

/// Whether a column of this type can have an index with this option and value, where the options name this class of analyzer.
pub fn is_allowed(kind: ColumnType, class: Option<Class>, option: &[u8], value: &[u8]) -> bool
    ensures { result ≡ is_allowed kind class (option.now, value.now) }
{
    let is_text = kind == ColumnType::Text;
    if option == MODE {
        return mode_named(value).is_some();
    }
    if option == ANALYZER_CLASS {
        return is_text && class.is_some();
    }
    if option == ANALYZED {
        return is_flag(value);
    }
    if option == CASE_SENSITIVE {
        return is_text && keeps_whole(class) && is_flag(value);
    }
    if option == LOWERCASE {
        return is_text && splits(class) && is_flag(value);
    }
    if option == STEMMING {
        return is_text && splits(class) && value == FALSE;
    }
    false
}

/// Whether a column of this type can have an index of this mode.
pub fn mode_fits(mode: Mode, kind: ColumnType) -> bool
    ensures { result ≡ mode_fits mode kind }
{
    match (mode, kind) {
        (Mode::Sparse, ColumnType::Text) => false,
        (_, ColumnType::Text) => true,
        (_, ColumnType::Uuid) => false,
        (Mode::Contains, _) => false,
        (_, _) => true,
    }
}

fn option_is(name: &[u8], value: &[u8], options: &[(Text, Text)]) -> bool
    ensures { result ≡ option_is name.now value.now options.now }
{
    match option_value(name, options) {
        Some(given) => value == given.bytes(),
        None => false,
    }
}

fn is_flag(value: &[u8]) -> bool
    ensures { result ≡ is_flag value.now }
{
    value == TRUE || value == FALSE
}

// Whether the word, in lower case, is this one.
fn is_in_any_case(word: &[u8], wanted: &[u8]) -> bool
    requires { map to_ascii_lowercase wanted.now ≡ wanted.now }
    ensures { result ≡ same (map lower_byte word.now) wanted.now }
{
    word.eq_ignore_ascii_case(wanted)
}

fn mode_named(name: &[u8]) -> Option<Mode>
    ensures { result ≡ mode_named name.now }
{
    if is_in_any_case(name, b"prefix") {
        return Some(Mode::Prefix);
    }
    if is_in_any_case(name, b"contains") {
        return Some(Mode::Contains);
    }
    is_in_any_case(name, b"sparse").then_some(Mode::Sparse)
}

fn class_named(name: &[u8]) -> Option<Class>
    ensures { result ≡ class_named name.now }
{
    if name == NON_TOKENIZING {
        return Some(Class::NonTokenizing);
    }
    if name == STANDARD {
        return Some(Class::Standard);
    }
    None
}

fn rule_by(class: Class, options: &[(Text, Text)]) -> Rule
    ensures { result ≡ rule_by options.now class }
{
    match class {
        Class::NonTokenizing => Rule::Whole {
            fold: option_is(CASE_SENSITIVE, FALSE, options),
        },
        Class::Standard => Rule::Words {
            fold: option_is(LOWERCASE, TRUE, options),
        },
    }
}

fn keeps_whole(class: Option<Class>) -> bool
    ensures { result ≡ keeps_whole class }
{
    class == Some(Class::NonTokenizing)
}

fn splits(class: Option<Class>) -> bool
    ensures { result ≡ splits class }
{
    class == Some(Class::Standard)
}
