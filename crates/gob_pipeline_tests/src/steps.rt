//! Steps of a job that are set up on columns which aren't the job's: the columns behind them, and why they are refused.

ghost use Rattle.std.specs.Prelude.{◌≤◌, length};

use crate::cuts::same_bytes;
use gob_convert::Convert;
use gob_job::read_job;
use gob_plan::{Column, Columns, Kind, List, NoMemory, Refusal, StepFault, StepSpec, Text};
use gob_props::{Props, read_props};
use gob_steps::{StepsFault, steps_of};
use gob_text::push_u64;
use std::alloc::{AllocError, Global};
use std::process::Abort;
use std::test::Fail;

/// The columns that steps are set up on.
const COLUMNS: [(&str, Kind); 3] = [("n", Kind::Int), ("t", Kind::Text), ("b", Kind::Bool)];

/// The columns that steps are read on, the steps, and what they come to.
type Case = (&'static str, &'static str, &'static str);

const CASES: [Case; 30] = [
    ("b:int,n:text", "keep b n", "b:bool,n:int,"),
    ("n:int,x:int,y:int", "keep n x y", "0 no column x"),
    ("t:int,z:int", "drop t", "n:int,b:bool,"),
    ("n:int,t:int,b:int,z:int", "drop b t n", "0 bad value"),
    ("n:int,x:int,z:int", "drop n x", "0 no column x"),
    ("t:int", "rename t u", "n:int,u:text,b:bool,"),
    ("t:int", "rename t n", "0 bad value"),
    ("x:int", "rename x n", "0 no column x"),
    ("t:text", "cast t int", "n:int,t:int,b:bool,"),
    ("x:text", "cast x int", "0 no column x"),
    ("t:text", "set m int 7", "n:int,t:text,b:bool,m:int,"),
    ("t:text", "set t int 7", "n:int,t:int,b:bool,"),
    ("b:int", "copy b c", "n:int,t:text,b:bool,c:bool,"),
    ("b:int", "copy b n", "0 bad value"),
    ("x:int", "copy x b", "0 no column x"),
    ("t:text", "explode t |", "n:int,t:text,b:bool,"),
    ("n:text", "explode n |", "0 bad kind n"),
    ("x:text", "explode x |", "0 no column x"),
    ("t:text", "where ge t x", "n:int,t:text,b:bool,"),
    ("b:text", "where ge b x", "0 bad kind b"),
    ("n:text", "where ge n x", "0 bad value"),
    ("x:text", "where ge x a", "0 no column x"),
    ("t:text", "upper t", "n:int,t:text,b:bool,"),
    ("n:text", "upper n", "0 bad kind n"),
    ("b:text", "lower b", "0 bad kind b"),
    ("x:text", "lower x", "0 no column x"),
    // Each step is for the columns behind the one before, and the first that is refused is told.
    ("t:text", "rename t u; explode u |", "n:int,u:text,b:bool,"),
    ("b:text", "rename b u; upper u", "1 bad kind u"),
    ("t:text,x:text", "upper t; upper x", "1 no column x"),
    ("n:text,x:text", "upper n; lower x", "0 bad kind n"),
];

fn columns_of(alloc: Global, names: &[(&str, Kind)]) -> Result<Columns, Fail> {
    let mut list = List::new(alloc);
    for (name, kind) in names {
        list.push(Column {
            name: Text::from_str(alloc, name)?,
            kind: *kind,
        })?;
    }
    match Columns::new(list) {
        Ok(columns) => Ok(columns),
        Err(_) => Err(Fail::from("these are no columns")),
    }
}

fn job_of(alloc: Global, case: &Case) -> Result<String, AllocError> {
    let mut job = String::from_str(
        alloc,
        "source.format=csv\nwriter.format=csv\nsource.columns=",
    )?;
    job.push_str(case.0)?;
    job.push_str("\nconverter.classes=")?;
    job.push_str(case.1)?;
    Ok(job)
}

fn shown(alloc: Global, columns: &Columns) -> Result<Vec<u8>, NoMemory> {
    let mut text = Vec::new(alloc);
    for column in columns.as_slice() {
        text.extend_from_slice(column.name.as_str().as_bytes())?;
        text.extend_from_slice(match column.kind {
            Kind::Bool => b":bool,",
            Kind::Int => b":int,",
            Kind::Text => b":text,",
        })?;
    }
    Ok(text)
}

fn told(alloc: Global, at: u32, fault: &StepFault) -> Result<Vec<u8>, NoMemory> {
    let (why, column) = match fault {
        StepFault::Refused(Refusal::NoColumn { column }) => (" no column ", column.as_str()),
        StepFault::Refused(Refusal::BadKind { column }) => (" bad kind ", column.as_str()),
        StepFault::Refused(Refusal::BadValue) => (" bad value", ""),
        StepFault::Memory => (" out of memory", ""),
    };
    let mut text = Vec::new(alloc);
    push_u64(&mut text, u64::from(at))?;
    text.extend_from_slice(why.as_bytes())?;
    text.extend_from_slice(column.as_bytes())?;
    Ok(text)
}

fn behind_few(alloc: Global, specs: &[StepSpec], columns: &Columns) -> Result<Vec<u8>, NoMemory>
    requires { length specs.now ≤ 32 }
{
    match steps_of(alloc, specs, columns) {
        Ok(steps) => shown(alloc, steps.output()),
        Err(StepsFault { at, fault }) => told(alloc, at, &fault),
    }
}

fn behind(alloc: Global, specs: &[StepSpec], columns: &Columns) -> Result<Vec<u8>, NoMemory> {
    if specs.len() > 32 {
        return Ok(Vec::new(alloc));
    }
    behind_few(alloc, specs, columns)
}

fn steps_come_to(alloc: Global, steps: &[StepSpec], columns: &Columns) -> Result<Vec<u8>, Fail> {
    let text = behind(alloc, steps, columns)?;
    Ok(text)
}

fn props_come_to(alloc: Global, props: &Props, columns: &Columns) -> Result<Vec<u8>, Fail> {
    match read_job(alloc, "j", props) {
        Ok(job) => steps_come_to(alloc, job.plan.steps.as_slice(), columns),
        Err(_) => Err(Fail::from("no job")),
    }
}

// Of a job's text the steps, on these columns.
fn come_to(alloc: Global, job: &str, columns: &Columns) -> Result<Vec<u8>, Fail> {
    match read_props(alloc, job.as_bytes()) {
        Ok(props) => props_come_to(alloc, &props, columns),
        Err(_) => Err(Fail::from("no properties")),
    }
}

fn is_so(rt: &impl Abort, alloc: Global, case: &Case, columns: &Columns) -> Result<(), Fail> {
    let job = job_of(alloc, case)?;
    let found = come_to(alloc, job.as_str(), columns)?;
    same_bytes(rt, found.as_slice(), case.2.as_bytes());
    Ok(())
}

#[test]
fn steps_are_refused_as_they_are_told(rt: HostRuntime) -> Result<(), Fail> {
    let columns = columns_of(rt.alloc(), &COLUMNS)?;
    for case in &CASES {
        is_so(&rt, rt.alloc(), case, &columns)?;
    }
    Ok(())
}
