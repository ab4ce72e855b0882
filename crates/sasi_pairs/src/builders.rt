// The builders of all indexes of a data file.
ghost use Rattle.std.specs.Prelude.{◌≡◌, nat_eq, map, true, Err, IfOk, OnOk};
ghost use Rattle.std.specs.List.{AllByRecursion, position};
ghost use Rattle.sasi_types.specs.declared.class.Class.{Class};
ghost use Rattle.sasi_pairs.specs.Gathered.{CanTake, LacksClass, defs_of, fresh, with_partition};
ghost use Rattle.sasi_pairs.specs.SealedFiles.{IsTaken, has_index};

use crate::builder::IndexBuilder;
use sasi_analyzers::Kit;
use sasi_cells::Partition;
use sasi_host::DataNumber;
use sasi_types::{IndexDef, KitFault, Pair};
use std::alloc::{AllocError, Global};

/// A builder for each definition.
pub fn builders_of(
    alloc: Global,
    number: DataNumber,
    defs: &[IndexDef],
) -> Result<Vec<IndexBuilder>, AllocError>
    ensures { IfOk result (λ builders. builders.items ≡ map fresh defs.now) }
{
    let mut builders = Vec::with_capacity(alloc, defs.len())?;
    for def in defs {
        builders.push(IndexBuilder::new(alloc, number, def)?)?;
    }
    Ok(builders)
}

/// Adds the postings of a partition to each index.
pub fn add_partition(
    alloc: Global,
    builders: &mut [IndexBuilder],
    pair: Pair,
    part: &Partition,
    kit: &mut Kit,
) -> Result<(), KitFault>
    requires { AllByRecursion (CanTake part.now) builders.old }
    ensures ok { OnOk result (builders.new ≡ map (with_partition pair part.now) builders.old) }
    ensures defs { defs_of builders.new ≡ defs_of builders.old }
    ensures missing { (class : Class) → result ≡ Err (KitFault.Missing class) → LacksClass (map (λ b. kind (b.vtable, b.value)) kit.old.objects.items) (defs_of builders.old) class }
    ensures classes { map (λ b. kind (b.vtable, b.value)) kit.new.objects.items ≡ map (λ b. kind (b.vtable, b.value)) kit.old.objects.items }
{
    'builders: for at in 0..builders.len() {
        builders[at].add(alloc, pair, part, kit)?;
    }
    Ok(())
}

// The position of the first builder of an index with this number.
fn position_of(builders: &[IndexBuilder], number: u32) -> Option<usize>
    ensures { result ≡ position (λ i. nat_eq number i.def.number) builders.now }
{
    builders
        .iter()
        .position(|builder| number == builder.number())
}

/// Takes the builder of the index with this number out of them.
pub fn take_builder(builders: &mut Vec<IndexBuilder>, number: u32) -> IndexBuilder
    requires { has_index builders.old.items number ≡ true }
    ensures { IsTaken number builders.old.items result builders.new.items }
{
    match position_of(builders, number) {
        Some(at) => builders.remove(at),
        None => unreachable!(),
    }
}
