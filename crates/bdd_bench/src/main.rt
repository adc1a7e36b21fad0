//! Runs the arena on the tasks that its arguments name, as `queens=8`, and prints how many nodes
//! each made and how many its answer has. After the word `seconds` it prints the time that each
//! task took, too.
#![tactic(auto)]

ghost use Rattle.bdd_bench.specs.Fits.{Fits};

mod chain;
mod equal;
mod forget;
mod queens;
mod tables;
mod task;

use bdd_core::{Arena, Marks};
use rsml_base::NoMemory;
use std::alloc::Global;
use std::rt::Clock;
use std::time::Instant;
use std::{env, io};
use task::Task;

/// How many nodes a task made, and how many its answer has.
#[derive(Clone, Copy)]
struct Outcome {
    nodes: usize,
    size: usize,
}

/// Does a task in an arena of its own.
fn outcome_of(alloc: Global, task: Task) -> Result<Outcome, NoMemory>
    requires { Fits task }
{
    let mut arena = Arena::new(alloc, task.levels())?;
    let answer = task.answer(&mut arena)?;
    let mut marks = Marks::new(alloc, &arena)?;
    Ok(Outcome {
        nodes: arena.node_count(),
        size: arena.size(answer, &mut marks),
    })
}

/// Does the task that a word names, and prints its line.
fn show<R: Clock + Print + AllocGlobal>(rt: &R, word: &str, timed: bool) -> io::Result<()> {
    let Some(task) = Task::from_word(word) else {
        return println!(rt; "{word} is no task");
    };
    let start = Instant::now(rt)?;
    let Ok(outcome) = outcome_of(rt.alloc(), task) else {
        return println!(rt; "{word} out of memory");
    };
    let micros = start.elapsed(rt)?.as_micros();
    print!(rt; "{word} nodes {} size {}", outcome.nodes, outcome.size)?;
    if timed {
        print!(rt; " microseconds {micros}")?;
    }
    println!(rt)
}

fn main(rt: HostRuntime) -> io::Result<()> {
    let mut timed = false;
    for word in env::args(&rt)?.skip(1) {
        if word.as_str() == "seconds" {
            timed = true;
        } else {
            show(&rt, word.as_str(), timed)?;
        }
    }
    Ok(())
}
