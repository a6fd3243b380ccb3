//! The folders of rows.

use crate::helpers::same_text;
use gob_convert::Placer;
use gob_fork::Plain;
use gob_plan::{List, Row, Text, Value};
use gob_timeplace::Day;
use std::alloc::Global;
use std::process::Abort;
use std::test::Fail;

/// Seconds since 1970, and the folder of their day.
const DAYS: [(i64, &str); 16] = [
    (0, "out/1970/01/01/"),
    (86399, "out/1970/01/01/"),
    (86400, "out/1970/01/02/"),
    (946684799, "out/1999/12/31/"),
    (951782399, "out/2000/02/28/"),
    (951782400, "out/2000/02/29/"),
    (951868799, "out/2000/02/29/"),
    (951868800, "out/2000/03/01/"),
    (4107542399, "out/2100/02/28/"),
    (4107542400, "out/2100/03/01/"),
    (253402300799, "out/9999/12/31/"),
    (253402300800, "out/none/"),
    (-1, "out/none/"),
    (-86400, "out/none/"),
    (i64::MIN, "out/none/"),
    (i64::MAX, "out/none/"),
];

/// The folder, behind what the buffer held.
fn folder_of<P: Placer<Rec = Row>>(
    alloc: Global,
    placer: &P,
    value: Value,
) -> Result<String, Fail> {
    let mut values = List::new(alloc);
    values.push(value)?;
    let row = Row { values };
    let mut folder = Vec::from_slice(alloc, b"out/")?;
    placer.push_place(&row, &mut folder)?;
    Ok(String::from_utf8(folder)?)
}

fn is_in<P: Placer<Rec = Row>>(
    rt: &impl Abort,
    alloc: Global,
    placer: &P,
    value: Value,
    wanted: &str,
) -> Result<(), Fail> {
    let found = folder_of(alloc, placer, value)?;
    same_text(rt, found.as_str(), wanted);
    Ok(())
}

#[test]
fn days_have_folders(rt: HostRuntime) -> Result<(), Fail> {
    for (second, wanted) in &DAYS {
        is_in(&rt, rt.alloc(), &Day::new(0), Value::Int(*second), wanted)?;
    }
    Ok(())
}

#[test]
fn what_has_no_day_has_a_folder_too(rt: HostRuntime) -> Result<(), Fail> {
    let alloc = rt.alloc();
    let text = Text::from_str(alloc, "0")?;
    is_in(&rt, alloc, &Day::new(0), Value::Text(text), "out/none/")?;
    is_in(&rt, alloc, &Day::new(0), Value::Null, "out/none/")?;
    is_in(&rt, alloc, &Day::new(1), Value::Int(0), "out/none/")?;
    is_in(&rt, alloc, &Plain, Value::Int(0), "out/")
}
