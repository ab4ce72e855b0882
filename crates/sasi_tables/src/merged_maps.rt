// The merge of maps, one partition after another.
ghost use Rattle.std.specs.Prelude.{◌≡◌, IfOk, IsSome, None, OnOk, Some};
ghost use Rattle.std.specs.FinMap.{get};
ghost use Rattle.std.specs.List.{AllByRecursion};
ghost use Rattle.std.specs.Option.{option_map};
ghost use Rattle.std.specs.Ordering.{eq_by_cmp};
ghost use Rattle.sasi_merge.specs.Least.{least_from, lesser};
ghost use Rattle.sasi_merge.specs.Merging.{head_with, merged_part, merged_with};
ghost use Rattle.sasi_types.specs.DecoratedKey.{decorated_cmp};
ghost use Rattle.sasi_tables.specs.Held.{maps_with};
ghost use Rattle.sasi_tables.specs.MergedMaps.{GivesNext, found_head, heads_after};

use crate::table_maps::map_with;
use sasi_cells::Partition;
use sasi_memindex::MapBook;
use sasi_types::{DecoratedKey, Key, compare};
use std::alloc::{AllocError, Global};
use std::cmp::Ordering;

/// The first partition behind a key in the merge of the maps with these numbers, of which a later one is newer; the first of all where no
/// key is given, and None where there is none. It searches each map, and copies what they have of that one key.
pub fn next_merged(
    alloc: Global,
    maps: &MapBook,
    numbers: &[u64],
    last: Option<&DecoratedKey>,
) -> Result<Option<(DecoratedKey, Partition)>, AllocError>
    requires { AllByRecursion (λ number. IsSome (get maps.now number)) numbers.now }
    ensures { IfOk result (GivesNext (option_map (λ k. k.now) last.entry) (maps_with maps.now numbers.now)) }
{
    let Some(key) = least_after(maps, numbers, last) else {
        return Ok(None);
    };
    let key = copy_decorated(alloc, key)?;
    let partition = merged_at(alloc, maps, numbers, last, &key)?;
    Ok(Some((key, partition)))
}

// The least key behind a key in one of the maps.
fn least_after<'a>(
    maps: &'a MapBook,
    numbers: &[u64],
    last: Option<&DecoratedKey>,
) -> Option<&'a DecoratedKey>
    requires { AllByRecursion (λ number. IsSome (get maps.now number)) numbers.now }
    ensures { option_map (λ k. k.now) result ≡ least_from None (heads_after (option_map (λ k. k.now) last.entry) (maps_with maps.now numbers.now)) }
{
    let mut least = None;
    for number in numbers {
        least = lesser(least, map_with(maps, *number).after(last));
    }
    least
}

// The lesser of a key and that of an entry.
fn lesser<'a>(
    least: Option<&'a DecoratedKey>,
    found: Option<(&'a DecoratedKey, &'a Partition)>,
) -> Option<&'a DecoratedKey>
    ensures { option_map (λ k. k.now) result ≡ lesser (option_map (λ k. k.now) least.entry) (found_head (option_map (λ e. (e.0.now, e.1.now)) found.entry)) }
{
    match (least, found) {
        (_, None) => least,
        (None, Some((key, _))) => Some(key),
        (Some(key), Some((other, _))) => { if key > other { Some(other) } else { least } }
    }
}

// What the maps have of the key, merged, which is the least behind another.
fn merged_at(
    alloc: Global,
    maps: &MapBook,
    numbers: &[u64],
    last: Option<&DecoratedKey>,
    key: &DecoratedKey,
) -> Result<Partition, AllocError>
    requires { AllByRecursion (λ number. IsSome (get maps.now number)) numbers.now }
    ensures { IfOk result (λ part. part ≡ merged_part key.now (heads_after (option_map (λ k. k.now) last.entry) (maps_with maps.now numbers.now))) }
{
    let mut part = Partition::new(alloc);
    for number in numbers {
        merge_found(&mut part, map_with(maps, *number).after(last), key)?;
    }
    Ok(part)
}

// Merges the partition of an entry, if it has the key.
fn merge_found(
    part: &mut Partition,
    found: Option<(&DecoratedKey, &Partition)>,
    key: &DecoratedKey,
) -> Result<(), AllocError>
    ensures { OnOk result (part.new ≡ merged_with part.old (head_with key.now (found_head (option_map (λ e. (e.0.now, e.1.now)) found.entry)))) }
{
    match found {
        None => Ok(()),
        Some((other, later)) => merge_entry(part, other, later, key),
    }
}

// Merges a partition, if its key is this one.
fn merge_entry(
    part: &mut Partition,
    other: &DecoratedKey,
    later: &Partition,
    key: &DecoratedKey,
) -> Result<(), AllocError>
    ensures { OnOk result (part.new ≡ merged_with part.old (head_with key.now (found_head (Some (other.now, later.now))))) }
{
    if is_same(key, other) {
        part.merge(later)
    } else {
        Ok(())
    }
}

// Whether two keys are the same.
fn is_same(key: &DecoratedKey, other: &DecoratedKey) -> bool
    ensures { result ≡ eq_by_cmp decorated_cmp key.now other.now }
{
    compare(key.token, key.key.bytes(), other.token, other.key.bytes()) == Ordering::Equal
}

// A copy of a decorated key. Its bytes are those of a key, so the only fault is out of memory.
fn copy_decorated(alloc: Global, key: &DecoratedKey) -> Result<DecoratedKey, AllocError>
    ensures { IfOk result (λ copy. copy ≡ key.now) }
{
    match Key::new(alloc, key.key.bytes()) {
        Ok(copy) => Ok(DecoratedKey {
            token: key.token,
            key: copy,
        }),
        Err(_) => Err(AllocError),
    }
}
