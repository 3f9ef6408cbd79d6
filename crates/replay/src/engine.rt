// The engine: a heap and the commands that are performed on it.
ghost use Rattle.std.specs.Prelude.{◌≡◌, ◌≢◌, ◌↔◌, ◌<◌, ◌≤◌, true, Err, IfOk, OnOk, IsTrue, if◌then◌else◌};
ghost use Rattle.trace_types.specs.States.{State, opening};
ghost use Rattle.heap_store.specs.Stands.{Stands};
ghost use Rattle.trace_types.specs.WellFormed.{operands_fit};
ghost use Rattle.heap_store.specs.Starts.{Keeps};
ghost use Rattle.heap_store.specs.HeapView.{starts_of};
ghost use Rattle.heap_store.specs.Changes.{HaveSoundCards};
ghost use Rattle.trace_types.specs.declared.operand.CollectArgs.{CollectArgs};
ghost use Rattle.collector.specs.Collected.{KeepsFixed};
ghost use Rattle.replay.specs.Built.{takes_no_memory};
ghost use Rattle.replay.specs.Engine.{Steps};
ghost use Rattle.replay.specs.Words.{IsInRange};

use crate::collecting::collect_heap;
use crate::printing::{print_census, print_generation, print_graph};
use gc_io::Gate;
use heap_store::{Heap, HeapError};
use std::alloc::{AllocError, Global};
use std::marker::Model;
use std::thread::Threads;
use trace_types::{Command, Fault, Limits};

/// A heap and the commands that are performed on it, line by line.
#[derive(Drop)]
pub struct Engine {
    heap: Heap,
    sweepers: u32,
    newest: u32,
}

impl Model for Engine {
    ghost use Rattle.std.specs.Prelude.{◌≤◌};
    ghost use Rattle.replay.specs.Engine.{EngineView};
    ghost use Rattle.std.specs.Coded.{codes};
    ghost use Rattle.territory.specs.Territories.{coded_territory};

    ghost Value = { EngineView };

    ghost coded = { Prim.hlevel (codes, coded_territory) };

    ghost view = { λ e. record { heap = e.heap; sweepers = e.sweepers; newest = e.newest } };

    ghost invariant = { λ e. (e.heap.last ≤ e.newest) × (1 ≤ e.sweepers) × (e.sweepers ≤ 64) };
}

impl Engine {
    /// An engine over an empty heap, which has performed no line.
    pub fn new(alloc: Global, limits: Limits) -> Result<Engine, AllocError>
        requires { IsInRange limits }
        ensures opening { IfOk result (λ e. Stands e.heap (opening limits.generations)) }
        ensures cards { IfOk result (λ e. HaveSoundCards e.heap.territories) }
        ensures newest { IfOk result (λ e. e.newest ≡ 0) }
    {
        let heap = Heap::new(alloc, limits.generations)?;
        Ok(Engine {
            heap,
            sweepers: limits.sweepers,
            newest: 0,
        })
    }

    /// The heap.
    pub fn heap(&self) -> &Heap
        ensures { result.now ≡ self.now.heap }
    {
        &self.heap
    }

    /// The heap, where no more commands are to come.
    pub fn into_heap(self) -> Heap
        ensures { result ≡ self.heap }
    {
        let Engine {
            heap,
            sweepers: _,
            newest: _,
        } = self;
        heap
    }

    /// Performs the command of a line, whose fixnums are in range, and appends the text that it prints.
    ///
    /// A fault leaves the heap and the text as they were. Where memory runs out, the heap has failed, and a front of the
    /// command's text may have been appended. `thread`, `get`, `set`, `mov` and `version 2` take no memory. A collection is
    /// done by the sweepers of the limits, each in a thread of its own, and they pass the gate in each round. A command
    /// that isn't built yet has the fault `UnknownCommand`.
    pub fn step<R: Threads + Sync, G: Gate>(
        &mut self,
        rt: &R,
        line: u32,
        command: &Command,
        text: &mut Vec<u8>,
        gate: &G,
    ) -> Result<(), HeapError>
        requires newer { self.old.newest < line }
        requires line { line ≤ 1073741823 }
        requires operands { IsTrue (operands_fit command.now) }
        ensures step { (s : State) → Stands self.old.heap s → Steps s line command.now result text.old.items text.new.items self.new.heap }
        ensures kept { ((args : CollectArgs) → command.now ≢ Command.Collect args)
            → OnOk result (Keeps (starts_of self.old.heap) (starts_of self.new.heap)) }
        ensures fixed { (args : CollectArgs) → command.now ≡ Command.Collect args
            → OnOk result (KeepsFixed self.old.heap self.new.heap) }
        ensures cards { HaveSoundCards self.old.heap.territories → OnOk result (HaveSoundCards self.new.heap.territories) }
        ensures failed { (result ≡ Err HeapError.Failed) ↔ (self.old.heap.failed ≡ true) }
        ensures no_memory { IsTrue (takes_no_memory command.now) → result ≢ Err HeapError.NoMemory }
        ensures newest { self.new.newest ≡ line }
    {
        self.newest = line;
        match command {
            Command::Thread { thread } => self.heap.select_thread(*thread),
            Command::Cons { d, car, cdr } => self.heap.cons(line, *d, *car, *cdr),
            Command::MakeBox { d, value } => self.heap.make_box(line, *d, *value),
            Command::Vector { d, length, value } => self.heap.vector(line, *d, *length, *value),
            Command::Bytes { d, length, byte } => self.heap.bytes(line, *d, *length, *byte),
            Command::Get { d, s, index } => self.heap.get(*d, *s, *index),
            Command::Set { s, index, value } => self.heap.set(*s, *index, *value),
            Command::Mov { d, value } => self.heap.mov(*d, *value),
            Command::Version => self.heap.version_two(line),
            Command::Collect { args } => {
                collect_heap(rt, &mut self.heap, *args, self.sweepers, gate)
            }
            Command::Print { value } => print_graph(&mut self.heap, *value, text),
            Command::Census => print_census(&mut self.heap, text),
            Command::Gen { value } => print_generation(&mut self.heap, *value, text),
            _ => unbuilt(&self.heap),
        }
    }
}

// The answer of a command that isn't built.
fn unbuilt(heap: &Heap) -> Result<(), HeapError>
    ensures { result ≡ Err (if heap.now.failed then HeapError.Failed else HeapError.Fault Fault.UnknownCommand) }
{
    if heap.failed() {
        Err(HeapError::Failed)
    } else {
        Err(HeapError::Fault(Fault::UnknownCommand))
    }
}

#[cfg(test)]
mod tests {
    use super::*;
    use gc_io::OpenGate;
    use std::test::Fail;
    use trace_types::{Operand, Register};

    #[test]
    fn performs_what_is_built(rt: HostRuntime) -> Result<(), Fail> {
        let limits = Limits {
            sweepers: 1,
            generations: 3,
            max_lines: 10,
        };
        let mut engine = Engine::new(rt.alloc(), limits)?;
        let d = Register::new(4095).ok_or("no register")?;
        let mut text = Vec::new(rt.alloc());
        let made = Command::Cons {
            d,
            car: Operand::Fixnum(-1),
            cdr: Operand::False,
        };
        assert_eq!(rt; engine.step(&rt, 2, &made, &mut text, &OpenGate), Ok(()));
        let printed = Command::Print {
            value: Operand::Reg(d),
        };
        assert_eq!(rt; engine.step(&rt, 3, &printed, &mut text, &OpenGate), Ok(()));
        assert_eq!(rt;
            engine.step(&rt, 4, &Command::Census, &mut text, &OpenGate),
            Ok(())
        );
        assert_eq!(rt;
            text.as_slice(),
            b"= #0\n#0 pair g0 t0 -1 f\ng0 1 2\n".as_slice()
        );
        let unbuilt = Command::Guard { d };
        let refused = engine.step(&rt, 5, &unbuilt, &mut text, &OpenGate);
        assert_eq!(rt; refused, Err(HeapError::Fault(Fault::UnknownCommand)));
        assert!(rt; !engine.heap().failed());
        assert!(rt; !engine.into_heap().failed());
        Ok(())
    }
}
