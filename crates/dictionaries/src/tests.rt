//! Dictionaries that batches replace and add to.

use crate::{Dictionary, Dicts, ValueRuns};
use std::alloc::{AllocError, Global};
use std::test::Fail;
use values::{Kind, Value};

fn numbers(alloc: Global, numbers: &[i128]) -> Result<ValueRuns, AllocError> {
    let mut values = Vec::new(alloc);
    for number in numbers {
        values.push(Value {
            kind: Kind::Int(*number),
        })?;
    }
    Ok(ValueRuns::each(values))
}

fn holds(dictionary: &Dictionary, numbers: &[i128]) -> bool {
    for (i, number) in numbers.iter().enumerate() {
        let Some(value) = dictionary.get(i) else {
            return false;
        };
        let Kind::Int(found) = &value.kind else {
            return false;
        };
        if found != number {
            return false;
        }
    }
    dictionary.len() == numbers.len() && dictionary.get(numbers.len()).is_none()
}

/// Whether the dictionary of an id holds these numbers.
fn stands(dictionaries: &Dicts, id: i64, numbers: &[i128]) -> bool {
    match dictionaries.lookup(id) {
        Some(dictionary) => holds(dictionary, numbers),
        None => false,
    }
}

fn bring(
    dictionaries: &mut Dicts,
    alloc: Global,
    id: i64,
    is_delta: bool,
    list: &[i128],
) -> Result<(), AllocError> {
    let values = numbers(alloc, list)?;
    dictionaries.apply(id, is_delta, values)
}

#[test]
fn a_batch_replaces_and_a_delta_adds(rt: HostRuntime) -> Result<(), Fail> {
    let alloc = rt.alloc();
    let mut dictionaries = Dicts::new(alloc);
    assert!(rt; dictionaries.lookup(7).is_none());
    bring(&mut dictionaries, alloc, 7, false, &[1, 2])?;
    bring(&mut dictionaries, alloc, -8, false, &[9])?;
    bring(&mut dictionaries, alloc, 7, true, &[3])?;
    assert!(rt; stands(&dictionaries, 7, &[1, 2, 3]));
    bring(&mut dictionaries, alloc, 7, false, &[4])?;
    assert!(rt; stands(&dictionaries, 7, &[4]));
    assert!(rt; stands(&dictionaries, -8, &[9]));
    Ok(())
}

#[test]
fn a_delta_may_be_the_first(rt: HostRuntime) -> Result<(), Fail> {
    let alloc = rt.alloc();
    let mut dictionaries = Dicts::new(alloc);
    let mut values = Vec::new(alloc);
    values.push(Value { kind: Kind::Int(5) })?;
    values.push(Value { kind: Kind::Null })?;
    dictionaries.apply(7, true, ValueRuns::each(values))?;
    let dictionary = dictionaries.lookup(7).ok_or("none")?;
    assert_eq!(rt; dictionary.len(), 2);
    let second = dictionary.get(1).ok_or("one value")?;
    assert!(rt; matches!(&second.kind, Kind::Null));
    Ok(())
}

#[test]
fn an_empty_delta_brings_a_dictionary(rt: HostRuntime) -> Result<(), Fail> {
    let alloc = rt.alloc();
    let mut dictionaries = Dicts::new(alloc);
    bring(&mut dictionaries, alloc, 8, true, &[])?;
    assert!(rt; dictionaries.lookup(8).ok_or("none")?.is_empty());
    Ok(())
}

#[test]
fn what_was_handed_out_stays(rt: HostRuntime) -> Result<(), Fail> {
    let alloc = rt.alloc();
    let mut dictionaries = Dicts::new(alloc);
    bring(&mut dictionaries, alloc, 7, false, &[1, 2])?;
    let first = dictionaries.lookup(7).ok_or("none")?.share()?;
    bring(&mut dictionaries, alloc, 7, true, &[3])?;
    assert!(rt; stands(&dictionaries, 7, &[1, 2, 3]));
    bring(&mut dictionaries, alloc, 7, false, &[4])?;
    assert!(rt; holds(&first, &[1, 2]));
    Ok(())
}

#[test]
fn an_unknown_id_is_empty(rt: HostRuntime) -> Result<(), Fail> {
    let alloc = rt.alloc();
    let mut dictionaries = Dicts::new(alloc);
    bring(&mut dictionaries, alloc, 7, false, &[1, 2])?;
    assert!(rt; holds(&dictionaries.share(7)?, &[1, 2]));
    assert!(rt; dictionaries.share(8)?.is_empty());
    Ok(())
}

#[test]
fn what_is_prepared_comes_with_commit(rt: HostRuntime) -> Result<(), Fail> {
    let alloc = rt.alloc();
    let mut dictionaries = Dicts::new(alloc);
    let ready = dictionaries.prepare(7, true, numbers(alloc, &[1])?)?;
    assert!(rt; dictionaries.lookup(7).is_none());
    dictionaries.commit(ready);
    assert!(rt; stands(&dictionaries, 7, &[1]));
    Ok(())
}

#[test]
fn many_small_deltas(rt: HostRuntime) -> Result<(), Fail> {
    let alloc = rt.alloc();
    let mut dictionaries = Dicts::new(alloc);
    let mut all = Vec::new(alloc);
    for i in 0..300u64 {
        all.push(i as i128)?;
        bring(&mut dictionaries, alloc, 7, true, &[i as i128])?;
        bring(&mut dictionaries, alloc, 7, true, &[])?;
    }
    assert!(rt; stands(&dictionaries, 7, &all));
    Ok(())
}

/// This many nulls.
fn nulls(alloc: Global, count: usize) -> Result<ValueRuns, AllocError> {
    ValueRuns::repeated(alloc, Value { kind: Kind::Null }, count)
}

fn is_null(dictionary: &Dictionary, i: usize) -> bool {
    match dictionary.get(i) {
        Some(value) => matches!(&value.kind, Kind::Null),
        None => false,
    }
}

fn is_number(dictionary: &Dictionary, i: usize, number: i128) -> bool {
    match dictionary.get(i) {
        Some(value) => matches!(&value.kind, Kind::Int(found) if *found == number),
        None => false,
    }
}

#[test]
fn runs_and_values_in_turn(rt: HostRuntime) -> Result<(), Fail> {
    let alloc = rt.alloc();
    let mut dictionaries = Dicts::new(alloc);
    dictionaries.apply(7, false, nulls(alloc, 1 << 19)?)?;
    bring(&mut dictionaries, alloc, 7, true, &[1, 2])?;
    dictionaries.apply(7, true, nulls(alloc, 1 << 19)?)?;
    let dictionary = dictionaries.lookup(7).ok_or("none")?;
    assert_eq!(rt; dictionary.len(), (1 << 20) + 2);
    assert!(rt; is_null(dictionary, 0));
    assert!(rt; is_null(dictionary, (1 << 19) - 1));
    assert!(rt; is_number(dictionary, 1 << 19, 1));
    assert!(rt; is_number(dictionary, (1 << 19) + 1, 2));
    assert!(rt; is_null(dictionary, (1 << 19) + 2));
    assert!(rt; is_null(dictionary, (1 << 20) + 1));
    assert!(rt; dictionary.get((1 << 20) + 2).is_none());
    Ok(())
}

#[test]
fn runs_of_no_and_of_one_value(rt: HostRuntime) -> Result<(), Fail> {
    let alloc = rt.alloc();
    let mut dictionaries = Dicts::new(alloc);
    for _ in 0..100u64 {
        dictionaries.apply(7, true, nulls(alloc, 0)?)?;
        dictionaries.apply(7, true, nulls(alloc, 1)?)?;
        bring(&mut dictionaries, alloc, 7, true, &[3])?;
    }
    let dictionary = dictionaries.lookup(7).ok_or("none")?;
    assert_eq!(rt; dictionary.len(), 200);
    for i in 0..100usize {
        assert!(rt; is_null(dictionary, 2 * i));
        assert!(rt; is_number(dictionary, 2 * i + 1, 3));
    }
    assert!(rt; dictionary.get(200).is_none());
    Ok(())
}

#[test]
fn values_of_one_part_are_a_slice(rt: HostRuntime) -> Result<(), Fail> {
    let alloc = rt.alloc();
    let mut dictionaries = Dicts::new(alloc);
    bring(&mut dictionaries, alloc, 7, false, &[1, 2, 3])?;
    let whole = dictionaries.lookup(7).ok_or("none")?.share()?;
    let values = whole.as_slice().ok_or("several parts")?;
    assert_eq!(rt; values.len(), 3);
    let second = values.get(1).ok_or("one value")?;
    assert!(rt; matches!(&second.kind, Kind::Int(found) if *found == 2));
    bring(&mut dictionaries, alloc, 7, true, &[4])?;
    let longer = dictionaries.lookup(7).ok_or("none")?;
    assert!(rt; longer.as_slice().is_none());
    assert!(rt; holds(longer, &[1, 2, 3, 4]));
    Ok(())
}

#[test]
fn repeated_values_are_no_slice(rt: HostRuntime) -> Result<(), Fail> {
    let alloc = rt.alloc();
    let mut dictionaries = Dicts::new(alloc);
    dictionaries.apply(8, false, nulls(alloc, 3)?)?;
    assert!(rt; dictionaries.lookup(8).ok_or("none")?.as_slice().is_none());
    Ok(())
}

/// A dictionary 7 of the numbers from 1 to 4, which lies in two parts.
fn of_two_parts(alloc: Global) -> Result<Dicts, AllocError> {
    let mut dictionaries = Dicts::new(alloc);
    bring(&mut dictionaries, alloc, 7, false, &[1, 2, 3])?;
    bring(&mut dictionaries, alloc, 7, true, &[4])?;
    Ok(dictionaries)
}

#[test]
fn values_of_many_slots_are_gathered(rt: HostRuntime) -> Result<(), Fail> {
    let alloc = rt.alloc();
    let mut dictionaries = of_two_parts(alloc)?;
    let handed_out = dictionaries.share(7)?;
    dictionaries.count_slots(100);
    assert!(rt; stands(&dictionaries, 7, &[1, 2, 3, 4]));
    let gathered = dictionaries.share(7)?;
    assert_eq!(rt; gathered.as_slice().ok_or("several parts")?.len(), 4);
    assert!(rt; handed_out.as_slice().is_none());
    assert!(rt; holds(&handed_out, &[1, 2, 3, 4]));
    bring(&mut dictionaries, alloc, 7, true, &[5])?;
    assert!(rt; stands(&dictionaries, 7, &[1, 2, 3, 4, 5]));
    assert!(rt; holds(&gathered, &[1, 2, 3, 4]));
    Ok(())
}

#[test]
fn few_slots_gather_nothing_until_they_are_many(rt: HostRuntime) -> Result<(), Fail> {
    let alloc = rt.alloc();
    let mut dictionaries = of_two_parts(alloc)?;
    dictionaries.count_slots(20);
    assert!(rt; dictionaries.share(7)?.as_slice().is_none());
    dictionaries.count_slots(20);
    assert!(rt; dictionaries.share(7)?.as_slice().is_some());
    bring(&mut dictionaries, alloc, 7, true, &[5])?;
    dictionaries.count_slots(20);
    assert!(rt; dictionaries.share(7)?.as_slice().is_none());
    Ok(())
}

#[test]
fn repeated_values_are_gathered_too(rt: HostRuntime) -> Result<(), Fail> {
    let alloc = rt.alloc();
    let mut dictionaries = Dicts::new(alloc);
    dictionaries.apply(8, false, nulls(alloc, 3)?)?;
    dictionaries.count_slots(100);
    let gathered = dictionaries.share(8)?;
    assert_eq!(rt; gathered.as_slice().ok_or("runs")?.len(), 3);
    assert!(rt; is_null(&gathered, 2));
    Ok(())
}
