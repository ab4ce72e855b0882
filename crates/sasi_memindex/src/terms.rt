// The terms of a value.
ghost use Rattle.std.specs.Prelude.{◌≡◌, ◌∷◌, [], IfOk, IfErr, IfSome, Some, map};
ghost use Rattle.std.specs.Str.{IsUtf8};
ghost use Rattle.std.specs.Option.{option_copied};
ghost use Rattle.sasi_types.specs.declared.kit_fault.KitFault.TheVariants.{OutOfMemory};
ghost use Rattle.sasi_types.specs.declared.value.Value.TheVariants as values;
ghost use Rattle.sasi_memindex.specs.IndexedValues.{IsText, Makes};

use sasi_analyzers::Kit;
use sasi_terms::{bigint_term, int_term};
use sasi_types::{KitFault, Rule, Term, TermList, Text, Value};
use std::alloc::Global;
use std::str;

/// The terms of a value, those of a text by the first object of the rule's class.
pub fn terms_of(
    alloc: Global,
    rule: Option<Rule>,
    value: Option<&Value>,
    kit: &mut Kit,
) -> Result<TermList, KitFault>
    requires { IfSome (option_copied value) IsText }
    ensures makes { Makes (map (λ b. kind (b.vtable, b.value)) kit.old.objects.items) rule (option_copied value.entry) result }
    ensures classes { map (λ b. kind (b.vtable, b.value)) kit.new.objects.items ≡ map (λ b. kind (b.vtable, b.value)) kit.old.objects.items }
{
    match value {
        None => Ok(TermList::new(alloc)),
        Some(Value::Text(text)) => terms_of_text(alloc, rule, text, kit),
        Some(Value::Int(number)) => one_term(alloc, &int_term(*number)),
        Some(Value::BigInt(number)) => one_term(alloc, &bigint_term(*number)),
        Some(Value::Uuid(_)) => Ok(TermList::new(alloc)),
    }
}

// The terms of a text.
fn terms_of_text(
    alloc: Global,
    rule: Option<Rule>,
    text: &Text,
    kit: &mut Kit,
) -> Result<TermList, KitFault>
    requires { IsUtf8 text.now }
    ensures makes { Makes (map (λ b. kind (b.vtable, b.value)) kit.old.objects.items) rule (Some (values.Text text.now)) result }
    ensures classes { map (λ b. kind (b.vtable, b.value)) kit.new.objects.items ≡ map (λ b. kind (b.vtable, b.value)) kit.old.objects.items }
{
    let mut terms = TermList::new(alloc);
    if let Some(rule) = rule {
        kit.terms(alloc, rule, as_str(text), &mut terms)?;
    }
    Ok(terms)
}

// A text that is UTF-8.
fn as_str(text: &Text) -> &str
    requires { IsUtf8 text.now }
    ensures { result.now ≡ text.now }
{
    match str::from_utf8(text.bytes()) {
        Ok(text) => text,
        Err(_) => unreachable!(),
    }
}

// One term.
fn one_term(alloc: Global, bytes: &[u8]) -> Result<TermList, KitFault>
    ensures ok { IfOk result (λ terms. terms ≡ bytes.now ∷ []) }
    ensures err { IfErr result (λ fault. fault ≡ OutOfMemory) }
{
    let mut terms = TermList::new(alloc);
    let bytes = Vec::from_slice(alloc, bytes)?;
    terms.push(Term::new(bytes))?;
    Ok(terms)
}
