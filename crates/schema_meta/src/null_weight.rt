//! Weights of nulls of stored fields.

ghost use Rattle.std.specs.Prelude.{◌≡◌, ◌*◌, ◌<◌, ◌≤◌, MatchOption, IfSome, true, false};
ghost use Rattle.values.specs.Limits.{max_fields, max_null_weight};
ghost use Rattle.values.specs.Rose.{kids_of, rose_size, roses_size};
ghost use Rattle.values.specs.Layouts.{null_weight, null_weights};
ghost use Rattle.schema_meta.specs.FieldLayouts.{null_weights_fit, null_weight_fits, layout_of, layouts_of};

use crate::field::Field;
use values::Layout;
use values::limits::MAX_NULL_WEIGHT;

/// The weight of a null of this field; `None` if it, or that of a field below it, is above the limit.
#[cycle(null_weights)]
#[tactic(auto, using(crate::proofs::SlotLimits::null_weights_within))]
fn null_weight_of(field: &Field) -> Option<u64>
    requires { rose_size field.now ≤ max_fields }
    ensures value { MatchOption result (null_weight_fits (layout_of field.now) ≡ false)
        (λ n. (null_weight_fits (layout_of field.now) ≡ true) × (n ≡ null_weight (layout_of field.now))) }
    ensures bound { IfSome result (λ n. n ≤ max_null_weight) }
{
    let below = null_weights_of(&field.children)?;
    let layout = field.stored.layout();
    let null_weight = match layout {
        Layout::Struct => 1 + below,
        _ => layout.own_null_weight(),
    };
    if null_weight > MAX_NULL_WEIGHT {
        return None;
    }
    Some(null_weight)
}

/// The summed weight of nulls of these fields; `None` if one of them, or of those below them, is above the limit.
#[cycle(null_weights)]
#[tactic(auto, using(crate::proofs::SlotLimits::null_weights_within))]
pub(crate) fn null_weights_of(fields: &[Field]) -> Option<u64>
    requires { roses_size (kids_of fields.now) ≤ max_fields }
    ensures value { MatchOption result (null_weights_fit (layouts_of fields.now) ≡ false)
        (λ n. (null_weights_fit (layouts_of fields.now) ≡ true) × (n ≡ null_weights (layouts_of fields.now))) }
    ensures bound { IfSome result (λ n. n ≤ max_null_weight * roses_size (kids_of fields.now)) }
{
    let mut null_weights = 0;
    for field in fields {
        null_weights += null_weight_of(field)?;
    }
    Some(null_weights)
}
