// Plans.
ghost use Rattle.std.specs.Prelude.{◌≡◌, List, map, IfErr, IfOk, true};
ghost use Rattle.std.specs.List.{AllByRecursion};
ghost use Rattle.sasi_types.specs.declared.class.Class.{Class};
ghost use Rattle.sasi_model.specs.Abbreviations.{key_type, types_of};
ghost use Rattle.sasi_model.specs.Conditions.{condition_of};
ghost use Rattle.sasi_model.specs.Filters.{row_limit};
ghost use Rattle.sasi_model.specs.State.{decorated};
ghost use Rattle.sasi_model.specs.Step.{selected_columns};
ghost use Rattle.sasi_schema.specs.Defined.{definition};
ghost use Rattle.sasi_machine.specs.Classes.{OnMissing, TableLacks, WhereLacks};
ghost use Rattle.sasi_machine.specs.Operands.{CanSelect};
ghost use Rattle.sasi_machine.specs.Picks.{pick};
ghost use Rattle.sasi_machine.specs.Where.{model_condition};
ghost use Rattle.sasi_engine.specs.Asked.{asked_of};
ghost use Rattle.sasi_plan.specs.Plans.{IsAskedOf, IsNumbered, IsSourceOf, asks_indexes};
ghost use Rattle.sasi_engine.specs.KeyedHits.{agree};

use crate::relations::relations_of;
use sasi_analyzers::Kit;
use sasi_cells::Picked;
use sasi_engine::IndexedRelation;
use sasi_machine::{Condition, RowFilter, RowQuery};
use sasi_manifest::types_of;
use sasi_memtable::decorated;
use sasi_schema::Table;
use sasi_types::{DecoratedKey, IndexDef, Key, KitFault, Partitioner, Select, TypeList};
use std::alloc::{AllocError, Global};
use std::marker::Model;

/// Where the candidates of a SELECT come from.
#[derive(Drop)]
pub enum PlanSource {
    /// Nowhere: two relations ask for different keys.
    Nothing,
    /// A relation asks for a key, and these ask for it by indexed columns.
    OfKey(DecoratedKey, Vec<IndexedRelation>),
    /// The keys that these relations leave; all keys of the table where there is none.
    OfTable(Vec<IndexedRelation>),
}

/// What a reader of a SELECT is to do.
#[derive(Drop)]
pub struct Plan {
    pub(crate) alloc: Global,
    pub(crate) picked: Picked,
    pub(crate) filter: RowFilter,
    pub(crate) limit: Option<u64>,
    pub(crate) types: TypeList,
    pub(crate) source: PlanSource,
}

impl Model for Plan {
    ghost use Rattle.sasi_plan.specs.Plans.{PlanView};

    ghost Value = { PlanView };

    ghost view = { λ a. record { picked = a.picked; conditions = a.filter; limit = a.limit; types = a.types; source = a.source } };
}

impl Plan {
    /// What is to be done for a SELECT that isn't refused on this table, in a folder with this partitioner. It reads nothing.
    pub fn new(
        alloc: Global,
        select: &Select,
        table: &Table,
        partitioner: Partitioner,
        kit: &mut Kit,
    ) -> Result<Plan, KitFault>
        requires { CanSelect (definition table.now) select.now }
        ensures key { IfOk result (λ plan. plan.picked.key ≡ key_type (definition table.now)) }
        ensures columns { IfOk result (λ plan. plan.picked.columns ≡ map pick (selected_columns (definition table.now) select.now.columns)) }
        ensures limit { IfOk result (λ plan. plan.limit ≡ row_limit select.now.limit) }
        ensures conditions { IfOk result (λ plan. plan.conditions ≡ map (condition_of (definition table.now)) select.now.relations) }
        ensures types { IfOk result (λ plan. plan.types ≡ types_of (definition table.now)) }

        // Its source is that of the conditions, each of which can be asked of the index that it names.
        ensures source { IfOk result (λ plan. IsSourceOf partitioner table.now.indexes plan.conditions plan.source) }
        ensures asked { IfOk result (λ plan. AllByRecursion (IsAskedOf (definition table.now)) (asked_of plan.conditions)) }

        // A class is missing only where an index of the table needs it, and so it is when a row is tested.
        ensures classes { IfOk result (λ plan. (kinds : List Class) (class : Class) → WhereLacks kinds plan.conditions class → TableLacks kinds (definition table.now) class) }
        ensures missing { IfErr result (OnMissing (TableLacks (map (λ b. kind (b.vtable, b.value)) kit.old.objects.items) (definition table.now))) }
        ensures kinds { map (λ b. kind (b.vtable, b.value)) kit.new.objects.items ≡ map (λ b. kind (b.vtable, b.value)) kit.old.objects.items }
    {
        let query = RowQuery::new(alloc, table, select, kit)?;
        let source = source_of(alloc, partitioner, table.indexes.as_slice(), &query.filter)?;
        let types = types_of(alloc, table)?;
        Ok(Plan {
            alloc,
            picked: query.picked,
            filter: query.filter,
            limit: query.limit,
            types,
            source,
        })
    }

    /// Whether its candidates are those of hits. A reader of the plan then goes down trees from their roots for each token, and reads some
    /// pages again and again; without hits it reads each page about once.
    pub fn asks_indexes(&self) -> bool
        ensures { result ≡ asks_indexes self.now.source }
    {
        match &self.source {
            PlanSource::Nothing => false,
            PlanSource::OfKey(_key, relations) => !relations.as_slice().is_empty(),
            PlanSource::OfTable(relations) => !relations.as_slice().is_empty(),
        }
    }
}

// The decorated key of a copy of a key. Its bytes are those of a key, so the only fault is out of memory.
fn decorated_copy(
    alloc: Global,
    partitioner: Partitioner,
    key: &Key,
) -> Result<DecoratedKey, AllocError>
    ensures { IfOk result (λ copy. copy ≡ decorated partitioner key.now) }
{
    match Key::new(alloc, key.bytes()) {
        Ok(copy) => Ok(decorated(partitioner, copy)),
        Err(_) => Err(AllocError),
    }
}

// Whether each condition on the key asks for this one.
fn agree(key: &Key, conditions: &[Condition]) -> bool
    ensures { result ≡ agree key.now (map model_condition conditions.now) }
{
    for condition in conditions {
        if let Condition::OfKey(other) = condition {
            if other.bytes() != key.bytes() {
                return false;
            }
        }
    }
    true
}

// Where the candidates of a WHERE come from.
fn source_of(
    alloc: Global,
    partitioner: Partitioner,
    indexes: &[IndexDef],
    filter: &RowFilter,
) -> Result<PlanSource, AllocError>
    requires { AllByRecursion (IsNumbered indexes.now) (asked_of filter.now) }
    ensures { IfOk result (IsSourceOf partitioner indexes.now filter.now) }
{
    let conditions = filter.conditions();
    let relations = relations_of(alloc, indexes, conditions)?;
    let Some(key) = filter.key() else {
        return Ok(PlanSource::OfTable(relations));
    };
    if !agree(key, conditions) {
        return Ok(PlanSource::Nothing);
    }
    let key = decorated_copy(alloc, partitioner, key)?;
    Ok(PlanSource::OfKey(key, relations))
}
