// Observers of a flush.
ghost use Rattle.std.specs.Prelude.{◌∷◌, ◌++◌, [], List, OnOk};
ghost use Rattle.sasi_types.specs.declared.class.Class.{Class};
ghost use Rattle.sasi_datawrite.specs.Calls.{Call};
ghost use Rattle.sasi_datawrite.specs.Calls.Call.{start_partition as started, cell as observed, complete as completed};
ghost use Rattle.sasi_datawrite.specs.Causes.{MissingOnlyIfLacking};

use sasi_types::{Cell, KitFault, Token};

/// Gets each partition and cell that a data file is written from.
pub trait FlushObserver {
    /// It had these calls.
    ghost agrees: { Self → List Call → Type 0 };

    /// It needs an analyzer of this class, and none was handed in.
    ghost lacks: { Self → Class → Type 0 };

    /// A partition begins, at this offset of the data file.
    fn start_partition(&mut self, token: Token, place: u64) -> Result<(), KitFault>
        ensures agrees { OnOk result ((calls : List Call) → agrees self.old calls → agrees self.new (calls ++ started token place ∷ [])) }
        ensures lacks { (class : Class) → lacks self.new class → lacks self.old class }
        ensures missing { MissingOnlyIfLacking (lacks self.old) result };

    /// The partition has this cell. Its cells come in the order of their columns.
    fn cell(&mut self, column: u16, cell: &Cell) -> Result<(), KitFault>
        ensures agrees { OnOk result ((calls : List Call) → agrees self.old calls → agrees self.new (calls ++ observed column cell.now ∷ [])) }
        ensures lacks { (class : Class) → lacks self.new class → lacks self.old class }
        ensures missing { MissingOnlyIfLacking (lacks self.old) result };

    /// No partition follows. The owner of the observer calls it, once; a writer doesn't.
    fn complete(&mut self) -> Result<(), KitFault>
        ensures agrees { OnOk result ((calls : List Call) → agrees self.old calls → agrees self.new (calls ++ completed ∷ [])) }
        ensures lacks { (class : Class) → lacks self.new class → lacks self.old class }
        ensures missing { MissingOnlyIfLacking (lacks self.old) result };
}

/// The observer that does nothing.
#[derive(Clone, Copy, Debug)]
pub struct NoWatch;

impl FlushObserver for NoWatch {
    ghost agrees = { λ _ _. Unit {0} };

    ghost lacks = { λ _ _. ⊥ };

    fn start_partition(&mut self, _token: Token, _place: u64) -> Result<(), KitFault> {
        Ok(())
    }

    fn cell(&mut self, _column: u16, _cell: &Cell) -> Result<(), KitFault> {
        Ok(())
    }

    fn complete(&mut self) -> Result<(), KitFault> {
        Ok(())
    }
}
