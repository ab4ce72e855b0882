// The least key of heads, and the merge of its partitions.
ghost use Rattle.std.specs.Prelude.{◌≡◌, None, Some, IfOk, OnOk};
ghost use Rattle.std.specs.Option.{option_map};
ghost use Rattle.std.specs.Ordering.{is_gt};
ghost use Rattle.sasi_types.specs.DecoratedKey.{decorated_cmp};
ghost use Rattle.sasi_cells.specs.Maps.{joined};
ghost use Rattle.sasi_merge.specs.Merging.{has_key, merged_heads, merged_with, part_at, with_token};
ghost use Rattle.sasi_merge.specs.Least.{least_from, lesser};

use crate::Head;
use sasi_cells::Partition;
use sasi_types::{Key, Token, compare};
use std::alloc::{AllocError, Global};
use std::cmp::Ordering;

// Whether the first of two keys is above the second.
fn is_above(a: Token, x: &Key, b: Token, y: &Key) -> bool
    ensures { result ≡ is_gt (decorated_cmp (with_token a x.now) (with_token b y.now)) }
{
    compare(a, x.bytes(), b, y.bytes()) == Ordering::Greater
}

// The lesser of a key and that of a head.
fn lesser<'a>(least: Option<(Token, &'a Key)>, head: &'a Head) -> Option<(Token, &'a Key)>
    ensures { option_map (λ l. with_token l.0 l.1.now) result ≡ lesser (option_map (λ l. with_token l.0 l.1.now) least.entry) head.now }
{
    match (least, head) {
        (_, None) => least,
        (None, Some((token, key, _))) => Some((*token, key)),
        (Some((token, key)), Some((other, bytes, _))) => {
            if is_above(token, key, *other, bytes) {
                Some((*other, bytes))
            } else {
                least
            }
        }
    }
}

/// The least key of the heads, with its token.
pub fn least(heads: &[Head]) -> Option<(Token, &Key)>
    ensures { option_map (λ l. with_token l.0 l.1.now) result ≡ least_from None heads.now }
{
    let mut least = None;
    for head in heads {
        least = lesser(least, head);
    }
    least
}

/// Whether the head has the key with this token.
pub fn has_key(head: &Head, token: Token, key: &Key) -> bool
    ensures { result ≡ has_key (with_token token key.now) head.now }
{
    match head {
        None => false,
        Some((other, bytes, _)) => {
            compare(token, key.bytes(), *other, bytes.bytes()) == Ordering::Equal
        }
    }
}

/// Merges the partition of a head onto what older heads have of its key. It moves, so the first one is taken without a copy.
pub fn add_head(part: &mut Partition, head: Head) -> Result<(), AllocError>
    ensures { OnOk result (part.new ≡ merged_with part.old head) }
{
    match head {
        None => Ok(()),
        Some((_, _, later)) => part.merge_from(later),
    }
}

/// The merge of the partitions of the key with this token, the oldest first; None where no head has it.
pub fn merged(
    alloc: Global,
    heads: &[Head],
    token: Token,
    key: &Key,
) -> Result<Option<Partition>, AllocError>
    ensures { IfOk result (λ merged. merged ≡ merged_heads (with_token token key.now) None heads.now) }
{
    let mut merged = None;
    for head in heads {
        merge_head(alloc, &mut merged, head, token, key)?;
    }
    Ok(merged)
}

// Merges the partition of a head, if it has the key.
fn merge_head(
    alloc: Global,
    merged: &mut Option<Partition>,
    head: &Head,
    token: Token,
    key: &Key,
) -> Result<(), AllocError>
    ensures { OnOk result (merged.new ≡ joined merged.old (part_at (with_token token key.now) head.now)) }
{
    if !has_key(head, token, key) {
        return Ok(());
    }
    match head {
        None => Ok(()),
        Some((_, _, part)) => merge_into(alloc, merged, part),
    }
}

// Merges a later partition, or copies it where there is none before it.
fn merge_into(
    alloc: Global,
    merged: &mut Option<Partition>,
    part: &Partition,
) -> Result<(), AllocError>
    ensures { OnOk result (merged.new ≡ joined merged.old (Some part.now)) }
{
    match merged {
        Some(before) => before.merge(part),
        None => {
            *merged = Some(part.copy(alloc)?);
            Ok(())
        }
    }
}
