// The pair under which the key tree of a data file has a partition.
ghost use Rattle.std.specs.Prelude.{◌≡◌};

use sasi_datawrite::FlushObserver;
use sasi_types::{Cell, KitFault, Pair, Token};

/// An observer that keeps the pair of the last partition that was written; zeros where there is none.
#[derive(Clone, Copy)]
pub struct SeenPair {
    pub pair: Pair,
}

impl SeenPair {
    /// No partition was written.
    pub fn new() -> SeenPair
        ensures { result.pair ≡ record { token = 0; place = 0 } }
    {
        SeenPair {
            pair: Pair { token: 0, place: 0 },
        }
    }
}

impl FlushObserver for SeenPair {
    ghost use Rattle.std.specs.Prelude.{◌≡◌};
    ghost use Rattle.std.specs.List.{fold};
    ghost use Rattle.sasi_pairs.specs.SeenPairs.{seen};

    ghost agrees = { λ a calls. a.pair ≡ fold seen (record { token = 0; place = 0 }) calls };

    ghost lacks = { λ _ _. ⊥ };

    fn start_partition(&mut self, token: Token, place: u64) -> Result<(), KitFault> {
        self.pair = Pair { token, place };
        Ok(())
    }

    fn cell(&mut self, _column: u16, _cell: &Cell) -> Result<(), KitFault> {
        Ok(())
    }

    fn complete(&mut self) -> Result<(), KitFault> {
        Ok(())
    }
}
