//! A configuration that is accepted, and texts that are refused.

use crate::{ConfigFault, find_fault, read_config};
use std::alloc::{AllocError, Global};
use std::test::Fail;
use view_lang::{Missing, Outputs, Role};

const ZONES: &str = "[main]\nkey = \"id\"\n\
    columns = [[\"id\", \"int64\"], [\"grp\", \"utf8\"], [\"amt\", \"int64\"]]\n\
    [side.zones]\nkey = \"grp\"\ncolumns = [[\"grp\", \"utf8\"], [\"zone\", \"utf8\"]]\n\
    [feed.add]\nrole = \"append\"\n[feed.del]\nrole = \"retract\"\n\
    [feed.put]\nrole = \"put\"\nside = \"zones\"\n[feed.cut]\nrole = \"drop\"\nside = \"zones\"\n\
    [view.top]\ncolumns = [[\"id\", \"col\", \"id\"], [\"amt\", \"col\", \"amt\"]]\n\
    order = [[\"amt\", \"asc\"]]\nfirst = 2\n\
    [view.zone]\nlookup = { side = \"zones\", on = \"grp\", missing = \"drop\" }\n\
    filter = [\"and\", [\"ge\", \"amt\", 0], [\"not\", [\"is_null\", [\"side\", \"zone\"]]]]\n\
    group = [[\"side\", \"zone\"]]\n\
    columns = [[\"zone\", \"col\", [\"side\", \"zone\"]], [\"n\", \"count\"]]\n";

#[test]
fn reads_tables_and_feeds(rt: HostRuntime) -> Result<(), Fail> {
    let config = read_config(rt.alloc(), ZONES)?;
    assert_eq!(rt; config.main.columns.len(), 3);
    let [zones] = config.sides.as_slice() else {
        return Err(Fail::from("not one side table"));
    };
    assert_eq!(rt; zones.name.as_str(), "zones");
    let [add, cut, del, put] = config.feeds.as_slice() else {
        return Err(Fail::from("not four feeds"));
    };
    assert_eq!(rt; add.name.as_str(), "add");
    assert_eq!(rt; cut.role, Role::Drop(0));
    assert_eq!(rt; del.role, Role::Retract);
    assert_eq!(rt; put.role, Role::Put(0));
    Ok(())
}

#[test]
fn reads_views(rt: HostRuntime) -> Result<(), Fail> {
    let config = read_config(rt.alloc(), ZONES)?;
    let [top, zone] = config.views.as_slice() else {
        return Err(Fail::from("not two views"));
    };
    assert_eq!(rt; top.first, Some(2));
    assert_eq!(rt; top.order.len(), 1);
    assert!(rt; zone.filter.is_some());
    let Some(lookup) = &zone.lookup else {
        return Err(Fail::from("no lookup"));
    };
    assert_eq!(rt; lookup.missing, Missing::Drop);
    let Outputs::Groups { by, columns, .. } = &zone.outputs else {
        return Err(Fail::from("no groups"));
    };
    assert_eq!(rt; by.as_slice(), [4].as_slice());
    assert_eq!(rt; columns.len(), 2);
    Ok(())
}

/// 2^`doublings` times this letter.
fn repeated(alloc: Global, letter: &str, doublings: u32) -> Result<String, AllocError> {
    let mut text = String::from_str(alloc, letter)?;
    for _ in 0..doublings {
        let half = String::from_str(alloc, text.as_str())?;
        text.push_str(half.as_str())?;
    }
    Ok(text)
}

fn fault_of(alloc: Global, text: &str) -> Option<ConfigFault> {
    read_config(alloc, text).err()
}

#[test]
fn refuses_texts_that_are_none(rt: HostRuntime) -> Result<(), Fail> {
    assert_eq!(rt; fault_of(rt.alloc(), ""), Some(ConfigFault::Shape));
    assert_eq!(rt; fault_of(rt.alloc(), "[main"), Some(ConfigFault::NotToml));
    Ok(())
}

/// The fault of a table with one view of these lines.
fn fault_of_view(alloc: Global, lines: &str) -> Result<Option<ConfigFault>, AllocError> {
    let mut text = String::from_str(
        alloc,
        "[main]\nkey = \"id\"\ncolumns = [[\"id\", \"int8\"], [\"x\", \"utf8\"], [\"l\", [\"list\", \"utf8\"]]]\n\
        [view.v]\n",
    )?;
    text.push_str(lines)?;
    Ok(fault_of(alloc, text.as_str()))
}

#[test]
fn refuses_wrong_views(rt: HostRuntime) -> Result<(), Fail> {
    let plain = "columns = [[\"a\", \"col\", \"id\"], [\"a\", \"col\", \"x\"]]\n";
    assert_eq!(rt;
        fault_of_view(rt.alloc(), plain)?,
        Some(ConfigFault::DuplicateColumn)
    );
    let unknown = "columns = [[\"a\", \"col\", [\"side\", \"id\"]]]\n";
    assert_eq!(rt;
        fault_of_view(rt.alloc(), unknown)?,
        Some(ConfigFault::UnknownName)
    );
    let above = "filter = [\"lt\", \"id\", 128]\ncolumns = [[\"a\", \"col\", \"id\"]]\n";
    assert_eq!(rt;
        fault_of_view(rt.alloc(), above)?,
        Some(ConfigFault::ConstantType)
    );
    let text = "group = []\ncolumns = [[\"s\", \"sum\", \"x\"]]\n";
    assert_eq!(rt;
        fault_of_view(rt.alloc(), text)?,
        Some(ConfigFault::SumType)
    );
    let list = "group = [\"l\"]\ncolumns = [[\"n\", \"count\"]]\n";
    assert_eq!(rt;
        fault_of_view(rt.alloc(), list)?,
        Some(ConfigFault::OrderType)
    );
    let first = "first = 16777217\ncolumns = [[\"a\", \"col\", \"id\"]]\n";
    assert_eq!(rt;
        fault_of_view(rt.alloc(), first)?,
        Some(ConfigFault::OverLimit)
    );
    Ok(())
}

#[test]
fn refuses_wrong_types(rt: HostRuntime) -> Result<(), Fail> {
    let text = "[main]\nkey = \"id\"\ncolumns = [[\"id\", \"int65\"]]\n";
    assert_eq!(rt; fault_of(rt.alloc(), text), Some(ConfigFault::TypeText));
    Ok(())
}

#[test]
fn refuses_long_texts(rt: HostRuntime) -> Result<(), Fail> {
    let word = repeated(rt.alloc(), "a", 20)?;
    assert_eq!(rt;
        fault_of(rt.alloc(), word.as_str()),
        Some(ConfigFault::NotToml)
    );
    let mut nested = String::from_str(rt.alloc(), "main = ")?;
    nested.push_str(repeated(rt.alloc(), "[", 10)?.as_str())?;
    nested.push_str(repeated(rt.alloc(), "]", 10)?.as_str())?;
    assert_eq!(rt;
        fault_of(rt.alloc(), nested.as_str()),
        Some(ConfigFault::NotToml)
    );
    Ok(())
}

#[test]
fn refuses_many_tests(rt: HostRuntime) -> Result<(), Fail> {
    let mut text = String::from_str(
        rt.alloc(),
        "columns = [[\"a\", \"col\", \"id\"]]\nfilter = [\"or\", ",
    )?;
    text.push_str(repeated(rt.alloc(), "[\"is_null\", \"x\"], ", 14)?.as_str())?;
    text.push_str("[\"is_null\", \"x\"]]\n")?;
    assert_eq!(rt;
        fault_of_view(rt.alloc(), text.as_str())?,
        Some(ConfigFault::OverLimit)
    );
    Ok(())
}

/// Where this text is refused, as it is printed, or nothing.
fn told(alloc: Global, text: &str) -> Result<String, Fail> {
    match find_fault(alloc, text)? {
        Some(place) => Ok(format!(in alloc; "{place}")?),
        None => Ok(String::new(alloc)),
    }
}

#[test]
fn finds_a_fault(rt: HostRuntime) -> Result<(), Fail> {
    let alloc = rt.alloc();
    assert_eq!(rt; told(alloc, ZONES)?.as_str(), "");
    assert_eq!(rt; told(alloc, "a = 1\nb =\n")?.as_str(), "line 2");
    let unknown = ZONES.replace(alloc, "first = 2", "firts = 2")?;
    assert_eq!(rt; told(alloc, unknown.as_str())?.as_str(), "view.top.firts");
    let order = ZONES.replace(alloc, "\"asc\"", "\"up\"")?;
    assert_eq!(rt; told(alloc, order.as_str())?.as_str(), "view.top.order");
    let side = ZONES.replace(alloc, "key = \"grp\"", "key = \"zne\"")?;
    assert_eq!(rt; told(alloc, side.as_str())?.as_str(), "side.zones.key");
    Ok(())
}
