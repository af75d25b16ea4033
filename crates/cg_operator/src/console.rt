//! An operator at the standard streams.

use crate::operating::operate;
use cg_links::Counted;
use cg_locked::{Name, Operate, SeatGate};
use cg_types::Fault;
use cg_views::Pass;
use std::alloc::Global;
use std::io;
use std::io::{Input, Print};
use std::sync::Wait;

/// An operator that reads standard input and writes standard output.
#[derive(Drop)]
pub struct Console<'a, R: Input + Print> {
    rt: &'a R,
}

impl<'a, R: Input + Print> Console<'a, R> {
    /// Makes the operator at the program's streams.
    pub fn new(rt: &'a R) -> Console<'a, R> {
        Console { rt }
    }
}

impl<'a, R: Input + Print> Operate for Console<'a, R> {
    fn run<N: Name, W: Wait>(
        &mut self,
        alloc: Global,
        gate: &mut SeatGate<'_, N, W>,
        pass: &mut Pass<N>,
    ) -> Result<(), Fault> {
        let mut reader = Counted::new(self.rt.reader());
        let mut writer = Counted::new(io::writer(self.rt));
        operate(alloc, &mut reader, &mut writer, gate, pass)
    }
}
