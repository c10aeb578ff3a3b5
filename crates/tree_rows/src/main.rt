//! Compares the trees of `safra_trees` and their steps with those of a plain program over lists of sets, and with some that
//! were worked out by hand. With two numbers as arguments it takes a long walk instead, to be measured.
#![tactic(auto)]

mod automata;
mod calls;
mod compared;
mod long_letters;
mod long_walk;
mod plain;
mod stored;
mod trees;

use calls::{Trees, long_told};
use compared::Pairs;
use row_files::{Count, Fault, Sequence, Stop, ask, number};
use std::alloc::Global;
use std::env;

/// The number of trees that one, two and three states have, with the empty one.
const TREES: [(u32, usize); 3] = [(1, 2), (2, 6), (3, 32)];

fn main(rt: HostRuntime) -> Result<(), Stop> {
    if let Some((first, steps)) = asked(&rt)? {
        print_long_walk(&rt, first, steps)?;
        return Ok(());
    }
    let mut count = Count::new();
    ask(&rt, &["trees.rows"], Trees, &mut count)?;
    compare(rt.alloc(), &mut Pairs::new(rt.alloc()), &mut count)?;
    count.end(&rt)
}

/// The two numbers after the program's name, or None where there are no arguments.
fn asked(rt: &HostRuntime) -> Result<Option<(u32, u32)>, Fault> {
    let arguments: Vec<String> = env::args(rt)?.collect(rt.alloc())?;
    numbers_of(&arguments)
}

fn numbers_of(arguments: &[String]) -> Result<Option<(u32, u32)>, Fault> {
    match arguments {
        [] | [_] => Ok(None),
        [_, first, steps] => Ok(Some((number(first)?, number(steps)?))),
        _ => Err(Fault::Missing),
    }
}

fn print_long_walk(rt: &HostRuntime, first: u32, steps: u32) -> Result<(), Fault> {
    let told = long_told(rt.alloc(), first, steps)?;
    println!(rt; "{told}")?;
    Ok(())
}

/// The rows that are in no file: each step of all trees of up to three states, the numbers of these, and random walks.
fn compare(alloc: Global, pairs: &mut Pairs, count: &mut Count) -> Result<(), Fault> {
    for (states, trees) in TREES {
        let found = pairs.all_of(alloc, states, count)?;
        count.add(found != trees);
    }
    let mut sequence = Sequence::new(1);
    for _ in 0..400 {
        pairs.walk(alloc, &mut sequence, count)?;
    }
    Ok(())
}
