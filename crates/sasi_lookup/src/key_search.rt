// Searches for a key.
ghost use Rattle.sasi_lookup.specs.KeySearches.{FindsOffset};

use sasi_dataread::PlacedKey;
use sasi_types::Key;

// The offset of a key's partition, by a binary search of keys that rise.
pub(crate) fn offset_of(keys: &[PlacedKey], key: &Key) -> Option<u64>
    ensures { FindsOffset keys.now key.now result }
{
    match keys.binary_search_by(|placed| placed.key.cmp(key)) {
        Ok(at) => Some(keys[at].place),
        Err(_) => None,
    }
}
