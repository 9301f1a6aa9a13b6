//! Numbers the rows of a batch by their keys, and finds live rows by them.

ghost use Rattle.std.specs.Prelude.{
  ◌≡◌,
  ◌<◌,
  ◌≤◌,
  ◌++◌,
  ◌∷◌,
  [],
  IfErr,
  IfOk,
  IfSome,
  IsSome,
  OnErr,
  OnOk,
  drop,
  get_or,
  length,
  take,
  true,
};
ghost use Rattle.std.specs.List.{IsDistinct};
ghost use Rattle.std.specs.List.Sorted.{IsStrictlyIncreasing};
ghost use Rattle.std.specs.Ordering.{eq_by_cmp, nat_cmp};
ghost use Rattle.values.specs.Datum.{is_null as is_null_by, null};
ghost use Rattle.values.specs.Keys.{datum_of_key};
ghost use Rattle.values.specs.declared.key.Key.{Key};
ghost use Rattle.view_lang.specs.Causes.{has_null};
ghost use Rattle.view_lang.specs.Contents.{keys_in};
ghost use Rattle.view_lang.specs.TableRules.{IsTable};
ghost use Rattle.row_keys.specs.Batches.{IsBatch, batch_rows};
ghost use Rattle.row_keys.specs.Found.{FindsAll, MissesKey};
ghost use Rattle.row_keys.specs.KeyColumns.{
  HoldsKeys,
  PushesKey,
  PushesKeys,
  RefusesKey,
  RefusesKeys,
  StandAlone,
  used_key,
};
ghost use Rattle.row_keys.specs.Numbers.{CanRevive, IsAt, Replaces, revived};
ghost use Rattle.row_keys.specs.PutKeys.{PutsKey, PutsKeys, RefusesPut};
ghost use Rattle.row_keys.specs.Stored.{AreGiven};

use crate::faults::EditFault;
use crate::numbers::Numbers;
use crate::turning::revive_all;
use arrays::Column;
use std::alloc::{AllocError, Global};
use values::{Key, KeyBuffer};
use view_lang::{Table, Unfit};

fn is_null_key(key: &Key) -> bool
    ensures { result ≡ is_null_by (datum_of_key key.now) }
{
    match key {
        Key::Null => true,
        _ => false,
    }
}

/// A copy of the key of cell `index`.
#[tactic(auto, using(crate::proofs::KeysOfBatch::reading))]
pub(crate) fn read_key(alloc: Global, column: &Column, index: usize) -> Result<Key, AllocError>
    requires below { index < length column.now.cells }
    requires keys { HoldsKeys column.now.layouts }
    ensures { IfOk result (λ key. datum_of_key key ≡ get_or column.now.cells index null) }
{
    column.law();
    Ok(Key::of_cell(alloc, column.view(index))?.unwrap())
}

/// The key of cell `index`, in a buffer.
#[tactic(auto, using(crate::proofs::KeysOfBatch::reading))]
fn buffer_key<'a>(
    keys: &'a mut KeyBuffer,
    column: &Column,
    index: usize,
) -> Result<&'a Key, AllocError>
    requires below { index < length column.now.cells }
    requires keys { HoldsKeys column.now.layouts }
    ensures { IfOk result (λ key. datum_of_key key.now ≡ get_or column.now.cells index null) }
{
    column.law();
    Ok(keys.key_of(column.view(index))?.unwrap())
}

/// Whether one of the cells from `from` on is null.
#[tactic(auto, using(crate::proofs::KeysOfBatch::nulls))]
fn has_null_from(column: &Column, from: usize) -> bool
    requires { from ≤ length column.now.cells }
    ensures { result ≡ has_null (drop from column.now.cells) }
{
    for index in from..column.len() {
        if column.is_null(index) {
            return true;
        }
    }
    false
}

/// Why a live row's key is refused: `NullKey` where it or a later one is null, else `DuplicateKey`.
fn used_key(column: &Column, index: usize) -> EditFault
    requires { index ≤ length column.now.cells }
    ensures { result ≡ used_key (has_null (drop index column.now.cells)) }
{
    if has_null_from(column, index) {
        EditFault::Unfit(Unfit::NullKey)
    } else {
        EditFault::Unfit(Unfit::DuplicateKey)
    }
}

/// Adds a live row with the key of cell `index`: `NullKey` where it or a later one is null, else `DuplicateKey` where a
/// live row has it.
#[tactic(auto, using(crate::proofs::KeysOfBatch::numbering))]
fn push_key(
    alloc: Global,
    column: &Column,
    index: usize,
    numbers: &mut Numbers,
) -> Result<(), EditFault>
    requires below { index < length column.now.cells }
    requires keys { HoldsKeys column.now.layouts }
    ensures pushed { OnOk result (PushesKey column.now.cells index numbers.old numbers.new) }
    ensures refused { IfErr result (RefusesKey column.now.cells index numbers.old) }
    ensures err { OnErr result (numbers.new ≡ numbers.old) }
{
    let key = read_key(alloc, column, index)?;
    if is_null_key(&key) {
        return Err(EditFault::Unfit(Unfit::NullKey));
    }
    match numbers.push(key)? {
        None => Ok(()),
        Some(_) => Err(used_key(column, index)),
    }
}

/// Adds a live row for each key of a column, in order: `NullKey` where one is null, `DuplicateKey` where one is there
/// twice or is a live row's. On an error the numbers are as they were.
#[tactic(auto, using(crate::proofs::KeysOfBatch::pushing))]
pub(crate) fn push_keys(
    alloc: Global,
    column: &Column,
    numbers: &mut Numbers,
) -> Result<(), EditFault>
    requires { HoldsKeys column.now.layouts }
    ensures pushed { OnOk result (PushesKeys column.now.cells numbers.old numbers.new) }
    ensures refused { IfErr result (RefusesKeys column.now.cells numbers.old) }
    ensures err { OnErr result (numbers.new ≡ numbers.old) }
{
    let before = numbers.len();
    for index in 0..column.len() {
        if let Err(fault) = push_key(alloc, column, index, numbers) {
            numbers.truncate(before);
            return Err(fault);
        }
    }
    Ok(())
}

/// Adds a live row that replaces the live row of this number, which is added to those that were replaced.
fn replace(
    numbers: &mut Numbers,
    number: usize,
    replaced: &mut Vec<usize>,
) -> Result<(), AllocError>
    requires { (key : Key) × IsAt numbers.old number key true }
    ensures rows { OnOk result (Replaces numbers.old number numbers.new) }
    ensures replaced { OnOk result (replaced.new.items ≡ replaced.old.items ++ number ∷ []) }
    ensures err { OnErr result (numbers.new ≡ numbers.old) }
    ensures same { OnErr result (replaced.new.items ≡ replaced.old.items) }
{
    replaced.reserve(1)?;
    numbers.replace(number)?;
    replaced.push(number).unwrap();
    Ok(())
}

/// Adds a live row with the key of cell `index`, which replaces the live row below `first` that has it, if there is
/// one: `NullKey` where the key or a later one is null, else `DuplicateKey` where another live row has it.
fn put_key(
    alloc: Global,
    column: &Column,
    index: usize,
    first: usize,
    numbers: &mut Numbers,
    replaced: &mut Vec<usize>,
) -> Result<(), EditFault>
    requires below { index < length column.now.cells }
    requires keys { HoldsKeys column.now.layouts }
    ensures put { OnOk result
        (PutsKey column.now.cells index first numbers.old replaced.old.items numbers.new replaced.new.items) }
    ensures refused { IfErr result (RefusesPut column.now.cells index first numbers.old) }
    ensures err { OnErr result (numbers.new ≡ numbers.old) }
    ensures same { OnErr result (replaced.new.items ≡ replaced.old.items) }
{
    numbers.distinct_law();
    let key = read_key(alloc, column, index)?;
    if is_null_key(&key) {
        return Err(EditFault::Unfit(Unfit::NullKey));
    }
    let Some(number) = numbers.push(key)? else {
        return Ok(());
    };
    if number >= first {
        return Err(used_key(column, index));
    }
    replace(numbers, number, replaced)?;
    Ok(())
}

/// Removes the rows from this one on, and makes those live again that they replaced. It takes no memory.
pub(crate) fn take_back_put(numbers: &mut Numbers, first: usize, replaced: &[usize])
    requires { CanRevive replaced.now (take first numbers.old) }
    ensures { numbers.new ≡ revived replaced.now (take first numbers.old) }
{
    numbers.truncate(first);
    revive_all(numbers, replaced);
}

/// Adds a live row for each key of a column, in order, each replacing the live row that had its key, and returns the
/// numbers of those: `NullKey` where a key is null, `DuplicateKey` where one is there twice. On an error the numbers
/// are as they were. Each key is looked up once.
#[tactic(auto, using(crate::proofs::PutKeys::putting))]
fn put_keys(alloc: Global, column: &Column, numbers: &mut Numbers) -> Result<Vec<usize>, EditFault>
    requires keys { HoldsKeys column.now.layouts }
    requires given { AreGiven numbers.old }
    ensures put { IfOk result (λ replaced. PutsKeys column.now.cells numbers.old replaced.items numbers.new) }
    ensures refused { IfErr result (RefusesKeys column.now.cells []) }
    ensures err { OnErr result (numbers.new ≡ numbers.old) }
{
    numbers.distinct_law();
    let first = numbers.len();
    let mut replaced = Vec::new(alloc);
    for index in 0..column.len() {
        if let Err(fault) = put_key(alloc, column, index, first, numbers, &mut replaced) {
            take_back_put(numbers, first, &replaced);
            return Err(fault);
        }
    }
    Ok(replaced)
}

/// Adds a live row for each row of a batch, by its key, as `put_keys` does.
pub(crate) fn put_batch(
    alloc: Global,
    table: &Table,
    columns: &[Column],
    rows: usize,
    numbers: &mut Numbers,
) -> Result<Vec<usize>, EditFault>
    requires table { IsTable table.now }
    requires batch { IsBatch table.now rows columns.now }
    requires given { AreGiven numbers.old }
    ensures put { IfOk result (λ replaced.
        PutsKeys (keys_in table.now (batch_rows rows columns.now)) numbers.old replaced.items numbers.new) }
    ensures refused { IfErr result (RefusesKeys (keys_in table.now (batch_rows rows columns.now)) []) }
    ensures err { OnErr result (numbers.new ≡ numbers.old) }
{
    put_keys(alloc, &columns[table.key], numbers)
}

/// Whether the key of a column of one row is null: `NullKey`. It takes no memory.
#[tactic(auto, using(crate::proofs::KeysOfBatch::nulls))]
fn check_one(column: &Column) -> Result<(), EditFault>
    requires one { length column.now.cells ≡ 1 }
    requires keys { HoldsKeys column.now.layouts }
    ensures pushed { OnOk result (StandAlone column.now.cells) }
    ensures refused { IfErr result (RefusesKeys column.now.cells []) }
{
    column.law();
    if column.is_null(0) {
        return Err(EditFault::Unfit(Unfit::NullKey));
    }
    Ok(())
}

/// Whether the keys of a column can be those of rows: `NullKey` where one is null, `DuplicateKey` where one is there
/// twice.
pub(crate) fn check_keys(alloc: Global, column: &Column) -> Result<(), EditFault>
    requires { HoldsKeys column.now.layouts }
    ensures pushed { OnOk result (StandAlone column.now.cells) }
    ensures refused { IfErr result (RefusesKeys column.now.cells []) }
{
    if column.len() == 1 {
        return check_one(column);
    }
    let mut seen = Numbers::new(alloc);
    push_keys(alloc, column, &mut seen)
}

/// Adds a live row for each row of a batch, by its key, as `push_keys` does.
pub(crate) fn push_batch(
    alloc: Global,
    table: &Table,
    columns: &[Column],
    rows: usize,
    numbers: &mut Numbers,
) -> Result<(), EditFault>
    requires table { IsTable table.now }
    requires batch { IsBatch table.now rows columns.now }
    ensures pushed { OnOk result
        (PushesKeys (keys_in table.now (batch_rows rows columns.now)) numbers.old numbers.new) }
    ensures refused { IfErr result (RefusesKeys (keys_in table.now (batch_rows rows columns.now)) numbers.old) }
    ensures err { OnErr result (numbers.new ≡ numbers.old) }
{
    push_keys(alloc, &columns[table.key], numbers)
}

/// The numbers of the live rows with the keys of a column, in order: `UnknownKey` where no live row has a key.
#[tactic(auto, using(crate::proofs::FoundRows::finding))]
pub(crate) fn find_keys(
    alloc: Global,
    column: &Column,
    numbers: &Numbers,
) -> Result<Vec<usize>, EditFault>
    requires { HoldsKeys column.now.layouts }
    ensures found { IfOk result (λ found. FindsAll column.now.cells numbers.now found.items) }
    ensures missed { IfErr result (MissesKey column.now.cells numbers.now) }
{
    let mut keys = KeyBuffer::new(alloc);
    let mut found = Vec::new(alloc);
    for index in 0..column.len() {
        let key = buffer_key(&mut keys, column, index)?;
        match numbers.find(key) {
            Some(number) => found.push(number)?,
            None => return Err(EditFault::Unfit(Unfit::UnknownKey)),
        }
    }
    Ok(found)
}

/// Whether these numbers ascend.
fn are_ascending(numbers: &[usize]) -> bool
    ensures { result ≡ true → IsStrictlyIncreasing numbers.now }
{
    for index in 1..numbers.len() {
        if numbers[index - 1] >= numbers[index] {
            return false;
        }
    }
    true
}

/// Whether none of these numbers is there twice. It takes memory where they don't ascend.
fn are_distinct(alloc: Global, numbers: &[usize]) -> Result<bool, AllocError>
    ensures { IfOk result (λ distinct. distinct ≡ true → IsDistinct (eq_by_cmp nat_cmp) numbers.now) }
{
    if are_ascending(numbers) {
        return Ok(true);
    }
    let mut sorted = Vec::from_slice(alloc, numbers)?;
    sorted.sort_unstable();
    Ok(are_ascending(&sorted))
}

/// The numbers of the live rows with the keys of a column, in order, where each key isn't null and a live row has it.
/// `None` where that isn't so.
#[tactic(auto, using(crate::proofs::FoundRows::finding))]
fn find_live(
    alloc: Global,
    column: &Column,
    numbers: &Numbers,
) -> Result<Option<Vec<usize>>, AllocError>
    requires { HoldsKeys column.now.layouts }
    ensures found { IfOk result (λ o. IfSome o (λ found. FindsAll column.now.cells numbers.now found.items)) }
{
    let mut keys = KeyBuffer::new(alloc);
    let mut found = Vec::with_capacity(alloc, column.len())?;
    for index in 0..column.len() {
        let key = buffer_key(&mut keys, column, index)?;
        match numbers.find(key) {
            Some(number) => found.push(number)?,
            None => return Ok(None),
        }
    }
    Ok(Some(found))
}

/// The numbers of the live rows with the keys of a column, in order, where a live row has each and none is there twice;
/// `None` where that isn't so. Each key is looked up once.
pub(crate) fn find_distinct(
    alloc: Global,
    column: &Column,
    numbers: &Numbers,
) -> Result<Option<Vec<usize>>, AllocError>
    requires keys { HoldsKeys column.now.layouts }
    requires given { AreGiven numbers.now }
    ensures found { IfOk result (λ o. IfSome o (λ found. FindsAll column.now.cells numbers.now found.items)) }
    ensures alone { IfOk result (λ o. IsSome o → StandAlone column.now.cells) }
{
    numbers.distinct_law();
    let Some(found) = find_live(alloc, column, numbers)? else {
        return Ok(None);
    };
    if are_distinct(alloc, &found)? {
        Ok(Some(found))
    } else {
        Ok(None)
    }
}
