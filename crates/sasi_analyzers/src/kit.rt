// Kits of analyzers.
ghost use Rattle.std.specs.Prelude.{◌≡◌, false, true, [], ◌∷◌, Err, map, length, IfOk, OnOk, OnErr, ◌<◌};
ghost use Rattle.sasi_types.specs.Rule.{class_of};
ghost use Rattle.sasi_terms.specs.Terms.{terms};
ghost use Rattle.sasi_analyzers.specs.NextTerm.{GivesTerm};
ghost use Rattle.sasi_analyzers.specs.Kits.{has_class, FindsFirst, Gives, KeepsOthers};

use crate::Analyzer;
use sasi_types::{Class, KitFault, Rule, Term, TermList};
use std::alloc::{AllocError, Global};

/// Analyzers, each in a box of its own, of which a rule asks for the first of its class. They are dropped with the kit.
#[derive(Drop)]
pub struct Kit {
    /// In the order in which they were handed in.
    pub objects: Vec<Box<dyn Analyzer>>,
}

// Whether the object is of the class.
fn is_of(object: &Box<dyn Analyzer>, class: Class) -> bool
    ensures { result ≡ has_class class (kind object.now ∷ []) }
{
    object.class() == class
}

// The position of the first object of the class.
fn position_of(objects: &[Box<dyn Analyzer>], class: Class) -> Option<usize>
    ensures { FindsFirst class (map (λ b. kind b) objects.now) result }
{
    let mut position = 0;
    'objects: while position < objects.len() {
        if is_of(&objects[position], class) {
            return Some(position);
        }
        position += 1;
    }
    None
}

// The next term of the object, as its trait says.
fn next_term(object: &mut Box<dyn Analyzer>, out: &mut Vec<u8>) -> Result<bool, AllocError>
    ensures gives { IfOk result (λ more. GivesTerm (left object.old) (left object.new) out.new.items more) }
    ensures class { kind object.new ≡ kind object.old }
{
    object.next_into(out)
}

// Adds the terms that the object gives of a text.
fn collect(
    alloc: Global,
    object: &mut Box<dyn Analyzer>,
    rule: Rule,
    text: &str,
    out: &mut TermList,
) -> Result<(), AllocError>
    requires class { kind object.old ≡ class_of rule }
    requires empty { out.old ≡ [] }
    ensures terms { OnOk result (out.new ≡ terms rule text.now) }
    ensures class { kind object.new ≡ kind object.old }
{
    object.load(alloc, rule, text)?;
    'terms: loop {
        let mut bytes = Vec::new(alloc);
        if !next_term(object, &mut bytes)? {
            return Ok(());
        }
        out.push(Term::new(bytes))?;
    }
}

impl Kit {
    /// The kit of these analyzers.
    pub fn new(objects: Vec<Box<dyn Analyzer>>) -> Kit
        ensures objects { result.objects.items ≡ objects.items }
        ensures classes { map (λ b. kind b) result.objects.items ≡ map (λ b. kind b) objects.items }
    {
        Kit { objects }
    }

    /// Whether it has an object of this class. It takes no memory.
    pub fn has(&self, class: Class) -> bool
        ensures { result ≡ has_class class (map (λ b. kind b) self.now.objects.items) }
    {
        position_of(&self.objects, class).is_some()
    }

    /// The terms of a text, by the first object of the rule's class. `out` is empty again after a fault.
    pub fn terms(
        &mut self,
        alloc: Global,
        rule: Rule,
        text: &str,
        out: &mut TermList,
    ) -> Result<(), KitFault>
        requires { out.old ≡ [] }
        ensures terms { Gives (has_class (class_of rule) (map (λ b. kind b) self.old.objects.items)) rule text.now out.new result }
        ensures classes { map (λ b. kind b) self.new.objects.items ≡ map (λ b. kind b) self.old.objects.items }
        ensures others { KeepsOthers (class_of rule) (map (λ b. kind b) self.old.objects.items) self.old.objects.items self.new.objects.items }
    {
        let class = rule.class();
        let Some(position) = position_of(&self.objects, class) else {
            return Err(KitFault::Missing(class));
        };
        match collect(alloc, &mut self.objects[position], rule, text, out) {
            Ok(()) => Ok(()),
            Err(AllocError) => {
                out.clear();
                Err(KitFault::OutOfMemory)
            }
        }
    }
}
