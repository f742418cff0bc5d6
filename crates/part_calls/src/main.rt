//! The program `part_calls WHAT KEYS CALLS`, for measurements: it fills a part of the index with so many keys, makes so
//! many calls of it, and says how many of them found or did what they were to. How long it takes is measured from outside.
#![tactic(auto)]

ghost use Rattle.std.specs.Prelude.{◌≤◌, ◌<◌, IfOk};

mod numbers;
mod part;
mod request_calls;
mod table_calls;
#[cfg(test)]
mod tests;
mod tree_calls;
mod words;

use part::answered;
use request_calls::RequestPart;
use std::alloc::{AllocError, Global};
use std::env;
use std::process::ExitCode;
use table_calls::TablePart;
use tree_calls::TreePart;
use words::{Task, What, task_of};

/// The status of words that aren't a task.
const USAGE: u8 = 2;

/// The status where the words can't be read, memory ends or the output fails.
const FAILED: u8 = 1;

fn main(rt: HostRuntime) -> ExitCode {
    let alloc = rt.alloc();
    let Ok(mut args) = env::args(&rt) else {
        return ExitCode::from(FAILED);
    };
    // The first is the program's name.
    args.next();
    let Ok(words) = args.collect::<Vec<String>>(alloc) else {
        return ExitCode::from(FAILED);
    };
    let Some(task) = task_of(&words) else {
        return ExitCode::from(USAGE);
    };
    let Ok(count) = count_of(alloc, task) else {
        return ExitCode::from(FAILED);
    };
    match println!(rt; "{count}") {
        Ok(()) => ExitCode::SUCCESS,
        Err(_) => ExitCode::from(FAILED),
    }
}

// How many calls of a task found or did what they were to.
fn count_of(alloc: Global, task: Task) -> Result<u32, AllocError>
    requires { 0 < task.keys }
    ensures within { IfOk result (λ count. count ≤ task.calls) }
{
    let Task { what, keys, calls } = task;
    match what {
        What::Tree(call) => answered(&mut TreePart::new(alloc, call, keys)?, calls),
        What::Table(call) => answered(&mut TablePart::new(alloc, call, keys)?, calls),
        What::Requests(call) => answered(&mut RequestPart::new(alloc, call, keys, calls)?, calls),
    }
}
