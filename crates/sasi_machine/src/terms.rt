// The terms of texts.
ghost use Rattle.std.specs.Prelude.{◌≡◌, IfOk, IfErr, Some, map};
ghost use Rattle.std.specs.Str.{IsUtf8};
ghost use Rattle.sasi_terms.specs.Terms.{terms};
ghost use Rattle.sasi_machine.specs.Classes.{OnMissing, RuleLacks};

use sasi_analyzers::Kit;
use sasi_types::{KitFault, Rule, TermList, Text};
use std::alloc::Global;

/// The terms that the rule makes of a text.
pub fn terms_of(alloc: Global, rule: Rule, text: &str, kit: &mut Kit) -> Result<TermList, KitFault>
    ensures terms { IfOk result (λ found. found ≡ terms rule text.now) }
    ensures missing { IfErr result (OnMissing (RuleLacks (map (λ b. kind (b.vtable, b.value)) kit.old.objects.items) (Some rule))) }
    ensures kinds { map (λ b. kind (b.vtable, b.value)) kit.new.objects.items ≡ map (λ b. kind (b.vtable, b.value)) kit.old.objects.items }
{
    let mut found = TermList::new(alloc);
    kit.terms(alloc, rule, text, &mut found)?;
    Ok(found)
}

/// The text, which is UTF-8.
pub fn as_str(text: &Text) -> &str
    requires { IsUtf8 text.now }
    ensures { result.now ≡ text.now }
{
    match str::from_utf8(text.bytes()) {
        Ok(text) => text,
        Err(_) => unreachable!(),
    }
}
