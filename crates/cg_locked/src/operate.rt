//! The work of an operator over a gate.

ghost use Rattle.std.specs.Prelude.{List, IfErr};
ghost use Rattle.cg_table.specs.Values.{TableValue};
ghost use Rattle.cg_table.specs.Puts.{Put};
ghost use Rattle.cg_core.specs.Values.{NodeValue};
ghost use Rattle.cg_locked.specs.Seats.{SeatValue, GoesOn, IsOperatorFault};

use crate::name::Name;
use crate::seat_gate::SeatGate;
use cg_types::Fault;
use cg_views::Pass;
use std::alloc::Global;
use std::sync::Wait;

/// An operator's work at a node: it reads by a pass, and has events done by a gate.
pub trait Operate {
    // the start of a node and the opening table of its views; an operator, its gate and what its pass has read or learnt;
    // and the gate, the pass and the operator after its work
    ghost works: { NodeValue → TableValue → Self → SeatValue → List Put → SeatValue → List Put → Self → Type 0 } = { λ n t o g p h q r. Unit {0} };

    /// Does the operator's work, to its end. Its faults are `OutOfMemory`, `ReadFault`, `WriteFault` and `NoSuchNode`
    /// alone.
    fn run<N: Name, R: Wait>(
        &mut self,
        alloc: Global,
        gate: &mut SeatGate<'_, N, R>,
        pass: &mut Pass<N>,
    ) -> Result<(), Fault>
        ensures works { works N.start N.opening self.old gate.old pass.old gate.new pass.new self.new }
        ensures gate { GoesOn gate.old gate.new }
        ensures fault { IfErr result IsOperatorFault };
}

/// Does an operator's work at a seat, to its end. A fault ends the operator alone.
pub fn operator<O: Operate, N: Name, R: Wait>(
    alloc: Global,
    gate: &mut SeatGate<'_, N, R>,
    pass: &mut Pass<N>,
    operate: &mut O,
) -> Result<(), Fault>
    ensures works { O.works N.start N.opening operate.old gate.old pass.old gate.new pass.new operate.new }
    ensures gate { GoesOn gate.old gate.new }
    ensures fault { IfErr result IsOperatorFault }
{
    operate.run(alloc, gate, pass)
}
