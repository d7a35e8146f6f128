ghost use Rattle.std.specs.Prelude.{◌≡◌, ◌<◌, ◌^◌, length};
ghost use Rattle.vcpu_turn.specs.Turning.{IsOf, StopsWhere};
ghost use Rattle.vcpu_runners.specs.Runners.{TakesTurnBy};

use vcpu_turn::{Cpu, stop, turn};
use xp_board::Port;
use xp_preempt::Preempt;

/// A virtual processor, and the gate that it asks in its turns. A vCPU that is retired has its gate yet, and asks it no more.
#[derive(Drop)]
pub struct Runner {
    pub cpu: Cpu,
    gate: Box<dyn Preempt + Send>,
}

impl Runner {
    /// A vCPU, with the gate that is its own from now on.
    pub fn new(cpu: Cpu, gate: Box<dyn Preempt + Send>) -> Runner
        ensures cpu { result.cpu ≡ cpu }
        ensures gate { policy result.gate ≡ policy gate }
    {
        Runner { cpu, gate }
    }

    /// A turn, by the own gate. A vCPU that is retired makes none.
    pub fn turn<P: Port>(&mut self, port: &mut P)
        requires short { length self.old.cpu.script < 2 ^ 32 }
        requires of { IsOf (P.value port.old) self.old.cpu }
        ensures post { (P.value port.new).post ≡ (P.value port.old).post }
        ensures turn { TakesTurnBy self.old.cpu.retired (policy self.old.gate) (policy self.new.gate) self.old.cpu self.new.cpu (P.value port.old) (P.value port.new) }
        ensures of { IsOf (P.value port.new) self.new.cpu }
    {
        if self.cpu.is_retired() {
            return;
        }
        turn(port, &mut self.cpu, &mut *self.gate);
    }

    /// Stops the vCPU. Its gate is not asked.
    pub fn stop<P: Port>(&mut self, port: &mut P)
        requires of { IsOf (P.value port.old) self.old.cpu }
        ensures post { (P.value port.new).post ≡ (P.value port.old).post }
        ensures stop { StopsWhere self.old.cpu.retired self.old.cpu self.new.cpu (P.value port.old) (P.value port.new) }
        ensures gate { policy self.new.gate ≡ policy self.old.gate }
        ensures of { IsOf (P.value port.new) self.new.cpu }
    {
        stop(port, &mut self.cpu);
    }

    /// The vCPU and its gate, apart.
    pub fn into_parts(self) -> (Cpu, Box<dyn Preempt + Send>)
        ensures cpu { result.0 ≡ self.cpu }
        ensures gate { policy result.1 ≡ policy self.gate }
    {
        (self.cpu, self.gate)
    }
}
