//! The program `loop_bench`: measures a row of the loop, and prints it as a line of JSON.
#![tactic(auto)]

use anyhow::Result;
use calloop_mio::{MioPoller, SystemClock};
use measured::Measured;
use request::{Request, read};
use row::{Kind, Row};
use std::alloc::Global;
use std::env;
use std::net::Net;
use std::num::NonZeroU32;
use std::process::ExitCode;
use std::rt::Runtime;
use std::sync::Wait;
use std::thread::Threads;

mod bench;
mod measured;
mod request;
mod row;
mod rows;
mod tasks;

// The poller and the clock that the rows run over.
type RowPoller<R> = MioPoller<SystemClock<R>>;

fn poller_name<R: Runtime + Wait + Net>() -> &'static str {
    <RowPoller<R> as Measured<SystemClock<R>, R>>::name()
}

fn measure<R: Runtime + AllocGlobal + Threads + Wait + Net + Send + Sync + 'static>(
    rt: &R,
    alloc: Global,
    row: &Row,
) -> Result<()> {
    let nanoseconds = rows::run::<RowPoller<R>, SystemClock<R>, R>(rt, alloc, row)?;
    let per_operation = nanoseconds / row.operations();
    println!(rt;
        "{{\"row\":\"{}\",\"poller\":\"{}\",\"count\":{},\"size\":{},\"nanoseconds\":{nanoseconds},\"per_operation\":{per_operation}}}",
        row.kind.name(),
        poller_name::<R>(),
        row.count.get(),
        row.size.get()
    )?;
    Ok(())
}

// Runs each row three times over two sources, without printing its time.
fn check<R: Runtime + AllocGlobal + Threads + Wait + Net + Send + Sync + 'static>(
    rt: &R,
    alloc: Global,
) -> Result<()> {
    for kind in Kind::ALL {
        let row = Row {
            kind,
            count: NonZeroU32::new(3).unwrap(),
            size: NonZeroU32::new(2).unwrap(),
        };
        let _nanoseconds = rows::run::<RowPoller<R>, SystemClock<R>, R>(rt, alloc, &row)?;
        println!(rt;
            "{{\"row\":\"{}\",\"poller\":\"{}\",\"count\":{},\"size\":{},\"calls\":{}}}",
            kind.name(),
            poller_name::<R>(),
            row.count.get(),
            row.size.get(),
            row.calls()
        )?;
    }
    Ok(())
}

fn run<R: Runtime + AllocGlobal + Threads + Wait + Net + Send + Sync + 'static>(
    rt: &R,
    alloc: Global,
) -> Result<ExitCode> {
    let words: Vec<String> = env::args(rt)?.skip(1).collect(alloc)?;
    match read(&words) {
        Ok(Request::Check) => check(rt, alloc)?,
        Ok(Request::Measure(row)) => measure(rt, alloc, &row)?,
        Err(unreadable) => {
            eprintln!(rt; "loop_bench: {unreadable}")?;
            return Ok(ExitCode::from(2));
        }
    }
    Ok(ExitCode::SUCCESS)
}

fn main(rt: HostRuntime) -> ExitCode {
    match run(&rt, rt.alloc()) {
        Ok(status) => status,
        Err(error) => {
            let _unsaid = eprintln!(rt; "loop_bench: {error}");
            ExitCode::FAILURE
        }
    }
}
