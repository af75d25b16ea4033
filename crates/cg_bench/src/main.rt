//! Measures the core's work on frames, tables, rings, texts, windows and entries.
//!
//! With no words it runs each case once and prints a digest of its result, which no clock and no machine changes. With
//! the word `time` it measures each.
#![tactic(auto)]

mod aboves;
mod cases;
mod frames;
mod gossip;
mod local;
mod making;
mod messages;
mod moving;
mod rings;
mod texts;
mod windows;
mod work;

use crate::cases::SHAPES;
use crate::local::local_cases;
use crate::making::{shaped, small, wide};
use cg_measure::{Failure, mode_of, run_cases};

fn main(rt: HostRuntime) -> Result<(), Failure> {
    let mode = mode_of(&rt);
    run_cases(&rt, rt.alloc(), mode, &small(rt.alloc())?)?;
    for (tag, shape) in SHAPES {
        run_cases(&rt, rt.alloc(), mode, &shaped(rt.alloc(), tag, shape)?)?;
    }
    run_cases(&rt, rt.alloc(), mode, &wide(rt.alloc())?)?;
    run_cases(&rt, rt.alloc(), mode, &local_cases(rt.alloc())?)
}
