// What an analyzer promises.
ghost use Rattle.std.specs.Prelude.{◌≡◌, ℕ, List, IfOk, OnOk};
ghost use Rattle.sasi_types.specs.declared.class.Class.{Class};
ghost use Rattle.sasi_types.specs.Rule.{class_of};
ghost use Rattle.sasi_terms.specs.Terms.{terms};
ghost use Rattle.sasi_analyzers.specs.NextTerm.{GivesTerm};

use sasi_types::{Class, Rule};
use std::alloc::{AllocError, Global};

/// An object that makes the terms of a text. After an error it answers again from the next `load` on.
pub trait Analyzer: Drop {
    // The class of the object.
    ghost kind: { Self → Class };

    // The terms that are left of the text that was loaded last.
    ghost left: { Self → List (List ℕ) };

    /// The class of the object.
    fn class(&self) -> Class
        ensures { result ≡ kind self.now };

    /// Takes a text, whose terms `next_into` then gives.
    fn load(&mut self, alloc: Global, rule: Rule, text: &str) -> Result<(), AllocError>
        requires { kind self.old ≡ class_of rule }
        ensures terms { OnOk result (left self.new ≡ terms rule text.now) }
        ensures class { kind self.new ≡ kind self.old };

    /// Replaces `out` by the next term and answers true. After the last term it answers false and leaves `out` empty.
    fn next_into(&mut self, out: &mut Vec<u8>) -> Result<bool, AllocError>
        ensures gives { IfOk result (λ more. GivesTerm (left self.old) (left self.new) out.new.items more) }
        ensures class { kind self.new ≡ kind self.old };
}
