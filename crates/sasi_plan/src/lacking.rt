// The class of analyzer that a WHERE needs and a kit lacks.
ghost use Rattle.std.specs.Prelude.{◌≡◌, map};
ghost use Rattle.sasi_machine.specs.Where.{model_condition};
ghost use Rattle.sasi_plan.specs.Lacking.{first_lacked, lacked_by};

use sasi_analyzers::Kit;
use sasi_machine::Condition;
use sasi_types::Class;

// That of one condition.
fn lacked_by(condition: &Condition, kit: &Kit) -> Option<Class>
    ensures { result ≡ lacked_by (map (λ b. kind (b.vtable, b.value)) kit.now.objects.items) (model_condition condition.now) }
{
    let Condition::Indexed(index, _) = condition else {
        return None;
    };
    let Some(rule) = index.rule else {
        return None;
    };
    let class = rule.class();
    if kit.has(class) { None } else { Some(class) }
}

/// That of the first condition that needs one.
pub(crate) fn first_lacked(conditions: &[Condition], kit: &Kit) -> Option<Class>
    ensures { result ≡ first_lacked (map (λ b. kind (b.vtable, b.value)) kit.now.objects.items) (map model_condition conditions.now) }
{
    for condition in conditions {
        if let Some(class) = lacked_by(condition, kit) {
            return Some(class);
        }
    }
    None
}
