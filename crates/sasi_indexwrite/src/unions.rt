// Lists of pairs put together.
ghost use Rattle.std.specs.Prelude.{◌≡◌, ◌^◌, ◌<◌, [], ◌∷◌, ◌++◌, IfOk, OnOk};
ghost use Rattle.sasi_tokentree.specs.Format.{AreFit};
ghost use Rattle.sasi_indexwrite.specs.Unions.{union_of};

use sasi_types::{Pair, PairList};
use std::alloc::{AllocError, Global};

// Adds these pairs at the end.
pub fn push_all(list: &mut PairList, pairs: &[Pair]) -> Result<(), AllocError>
    ensures ok { OnOk result (list.new ≡ list.old ++ pairs.now) }
    ensures fit { OnOk result (AreFit pairs.now) }
{
    for pair in pairs {
        push_pair(list, *pair)?;
    }
    Ok(())
}

fn push_pair(list: &mut PairList, pair: Pair) -> Result<(), AllocError>
    ensures ok { OnOk result (list.new ≡ list.old ++ pair ∷ []) }
    ensures token { pair.token < 2 ^ 64 }
    ensures place { pair.place < 2 ^ 64 }
{
    list.push(pair)
}

// The pairs in their order, each once.
pub fn union(alloc: Global, pairs: &PairList) -> Result<PairList, AllocError>
    ensures { IfOk result (λ once. once ≡ union_of pairs.now) }
{
    let mut sorted = pairs.as_slice().to_vec(alloc)?;
    sorted.sort_unstable();
    sorted.dedup();
    let mut once = PairList::new(alloc);
    push_all(&mut once, &sorted)?;
    Ok(once)
}
