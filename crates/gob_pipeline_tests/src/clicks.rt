//! The clicks of a web tier: a unit of forty lines.

use crate::cuts::{Unit, long_is_so};
use std::alloc::{AllocError, Global};
use std::test::Fail;

const CLICKS: &str =
    "# Clicks of the web tier\njob.name=clicks\nsource.class=files\nsource.format=json\n\
    source.columns=ip:text, path:text, \\\n    status:int\n! two branches\nfork.operator.class = first\n\
    fork.branches : 2\nfork.test.0=ge status 400\nfork.test.1=not null status\n\
    converter.classes.0=keep status path\nwriter.format.0=csv\nwriter.format.1=json\n\
    qualitychecker.row.policies.0=lt status 500\nqualitychecker.row.policy.types.0=OPTIONAL\n";

/// What stands around the two digits of a line's number and its status, in a line and in what it sends.
type Parts = [&'static str; 4];

const LINE: Parts = [
    "{\"ip\":\"10.0.0.",
    "\",\"path\":\"/p/",
    "\",\"status\":",
    ",\"took\":0.25}\n",
];

const SENT: Parts = [
    "{\"ip\":\"10.0.0.",
    "\",\"path\":\"/p/",
    "\",\"status\":",
    "}\n",
];

fn status_of(line: u8) -> &'static str {
    match line % 8 {
        3 => "404",
        7 => "500",
        _ => "200",
    }
}

fn push_digits(into: &mut Vec<u8>, line: u8) -> Result<(), AllocError> {
    into.push(b'0' + line / 10 % 10)?;
    into.push(b'0' + line % 10)?;
    Ok(())
}

fn push_line(into: &mut Vec<u8>, parts: Parts, line: u8) -> Result<(), AllocError> {
    into.extend_from_slice(parts[0].as_bytes())?;
    push_digits(into, line)?;
    into.extend_from_slice(parts[1].as_bytes())?;
    push_digits(into, line)?;
    into.extend_from_slice(parts[2].as_bytes())?;
    into.extend_from_slice(status_of(line).as_bytes())?;
    into.extend_from_slice(parts[3].as_bytes())?;
    Ok(())
}

fn push_record(into: &mut Vec<u8>, line: u8) -> Result<(), AllocError> {
    into.extend_from_slice(status_of(line).as_bytes())?;
    into.extend_from_slice(b",/p/")?;
    push_digits(into, line)?;
    into.push(b'\n')?;
    Ok(())
}

fn lines(alloc: Global) -> Result<Vec<u8>, AllocError> {
    let mut bytes = Vec::new(alloc);
    for line in 0..40_u8 {
        push_line(&mut bytes, LINE, line)?;
    }
    Ok(bytes)
}

// Each fourth line tells an error, and goes to the first branch.
fn sent(alloc: Global) -> Result<Vec<u8>, AllocError> {
    let mut bytes = Vec::from_slice(alloc, b"out0:")?;
    for line in 0..40_u8 {
        if line % 4 == 3 {
            push_record(&mut bytes, line)?;
        }
    }
    bytes.extend_from_slice(b"out1:")?;
    for line in 0..40_u8 {
        if line % 4 != 3 {
            push_line(&mut bytes, SENT, line)?;
        }
    }
    Ok(bytes)
}

fn clicks(alloc: Global) -> Result<Unit, AllocError> {
    let bytes = lines(alloc)?;
    let sent = sent(alloc)?;
    Ok(Unit {
        lo: 0,
        bytes,
        sent,
        end: "40 0 40 0, 10 0 5, 30 0 0",
    })
}

#[test]
fn clicks_go_to_two_branches(rt: HostRuntime) -> Result<(), Fail> {
    let unit = clicks(rt.alloc())?;
    assert!(&rt; unit.bytes.len() == 2360);
    long_is_so(&rt, rt.alloc(), CLICKS, &unit)
}
