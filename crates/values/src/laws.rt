//! Laws of the definitions: functions that do nothing, whose contracts are theorems.

ghost use Rattle.std.specs.Prelude.{◌≡◌};
ghost use Rattle.values.specs.KeyOrder.{KeysAreExact, KeysAreOrdered};
ghost use Rattle.values.specs.Limits.{
  max_metadata_size,
  max_body_size,
  max_fields,
  max_depth,
  max_name_len,
  max_null_weight,
  max_dictionary_values,
  max_batch_length,
  max_node_length,
  max_main_rows,
  max_cell_weight,
  max_row_weight,
  max_batch_rows,
  max_batch_weight,
  max_precision,
  max_fixed_width,
};
ghost use Rattle.values.specs.TypeEquality.{TypesAreExact};

use crate::limits::{
    MAX_BATCH_LENGTH, MAX_BATCH_ROWS, MAX_BATCH_WEIGHT, MAX_BODY_SIZE, MAX_CELL_WEIGHT, MAX_DEPTH,
    MAX_DICTIONARY_VALUES, MAX_FIELDS, MAX_FIXED_WIDTH, MAX_MAIN_ROWS, MAX_METADATA_SIZE,
    MAX_NAME_LEN, MAX_NODE_LENGTH, MAX_NULL_WEIGHT, MAX_PRECISION, MAX_ROW_WEIGHT,
};

/// Keys are equal exactly where they are the same value, and are ordered as values are.
#[tactic(auto, using(crate::proofs::KeyLaws::key_laws))]
pub fn key_law()
    ensures equal { KeysAreExact }
    ensures ordered { KeysAreOrdered }
{}

/// `==` on types of columns, and on their parts, is true exactly where both are the same.
#[tactic(auto, using(crate::proofs::Equality::type_equality))]
pub fn equality_law()
    ensures { TypesAreExact }
{}

/// Each limit of the code is that of the definitions.
pub fn limits_law()
    ensures metadata_size { MAX_METADATA_SIZE ≡ max_metadata_size }
    ensures body_size { MAX_BODY_SIZE ≡ max_body_size }
    ensures fields { MAX_FIELDS ≡ max_fields }
    ensures depth { MAX_DEPTH ≡ max_depth }
    ensures name_len { MAX_NAME_LEN ≡ max_name_len }
    ensures precision { MAX_PRECISION ≡ max_precision }
    ensures fixed_width { MAX_FIXED_WIDTH ≡ max_fixed_width }
    ensures null_weight { MAX_NULL_WEIGHT ≡ max_null_weight }
    ensures dictionary_values { MAX_DICTIONARY_VALUES ≡ max_dictionary_values }
    ensures batch_length { MAX_BATCH_LENGTH ≡ max_batch_length }
    ensures node_length { MAX_NODE_LENGTH ≡ max_node_length }
    ensures main_rows { MAX_MAIN_ROWS ≡ max_main_rows }
    ensures cell_weight { MAX_CELL_WEIGHT ≡ max_cell_weight }
    ensures row_weight { MAX_ROW_WEIGHT ≡ max_row_weight }
    ensures batch_rows { MAX_BATCH_ROWS ≡ max_batch_rows }
    ensures batch_weight { MAX_BATCH_WEIGHT ≡ max_batch_weight }
{}
