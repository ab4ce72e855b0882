// The hits of a relation in a data file.
ghost use Rattle.std.specs.Prelude.{◌≡◌, ◌||◌, OnOk, not};
ghost use Rattle.sasi_ranges.specs.Entries.{Rises};
ghost use Rattle.sasi_narrow.specs.Narrowing.{has_entry, hit_in_file};
ghost use Rattle.sasi_narrow.specs.inside.KeyRefs.{AddsKeys};

use sasi_dataread::PlacedKey;
use sasi_ranges::Entry;
use sasi_types::Key;
use std::alloc::AllocError;

// Whether an entry is one of these, which rise.
fn is_among(entries: &[Entry], entry: Entry) -> bool
    ensures { Rises entries.now → result ≡ has_entry entries.now entry }
{
    entries.binary_search(&entry).is_ok()
}

// Whether the key at an offset is a hit of the relation and the part of an entry.
fn is_hit(indexed: bool, hit: Entry, place: u64, entries: &[Entry]) -> bool
    ensures { Rises entries.now → result ≡ (not indexed || has_entry entries.now (record hit { place = place })) }
{
    !indexed || is_among(entries, Entry { place, ..hit })
}

/// Adds the keys of a data file that are hits. `hit` is an entry of the relation and the part, whatever its offset is.
pub fn add_file_hits<'a>(
    hits: &mut Vec<&'a Key>,
    indexed: bool,
    hit: Entry,
    keys: &'a [PlacedKey],
    entries: &[Entry],
) -> Result<(), AllocError>
    ensures { Rises entries.now
        → OnOk result (AddsKeys (hit_in_file (λ place. has_entry entries.now (record hit { place = place })) indexed keys.now)
        hits.old.items hits.new.items) }
{
    for placed in keys {
        if is_hit(indexed, hit, placed.place, entries) {
            hits.push(&placed.key)?;
        }
    }
    Ok(())
}
