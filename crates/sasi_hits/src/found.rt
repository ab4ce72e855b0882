// Pairs of a token and an offset, as hits.
ghost use Rattle.std.specs.Prelude.{◌≡◌};
ghost use Rattle.std.specs.Option.{option_map};
ghost use Rattle.sasi_hits.specs.Pairs.{entry_of};

use sasi_ranges::Entry;
use sasi_types::Pair;

// The hit of a relation at the offset of a pair, if there is one.
pub(crate) fn hit_of(leaf: u32, part: u64, found: Option<Pair>) -> Option<Entry>
    ensures { result ≡ option_map (entry_of leaf part) found }
{
    let pair = found?;
    Some(Entry {
        token: pair.token,
        leaf,
        part,
        place: pair.place,
    })
}
