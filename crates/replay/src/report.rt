// How a run ended is told: the status, the message on `err`, and the heap.
ghost use Rattle.std.specs.Prelude.{◌≡◌, ◌⊎◌, IfOk, string_bytes};
ghost use Rattle.replay.specs.Texts.{refusal, read_message, write_message, memory_message, usage_message};
ghost use Rattle.replay.specs.Rows.{wrote_of};
ghost use Rattle.replay.specs.Reports.{Told, Untold, Reports, number_of};

use crate::lines::Ending;
use crate::put::put;
use gc_io::Sink;
use heap_store::Heap;
use std::alloc::{AllocError, Global};
use trace_types::Fault;

/// How a replay ended.
#[derive(Clone, Copy, Debug, PartialEq, Eq)]
pub enum Status {
    /// The input was read to its end, and no line was refused.
    Done,
    /// A line was refused.
    Refused,
    /// The words were not in form.
    Usage,
    /// A read failed.
    ReadFault,
    /// A write or a flush failed.
    WriteFault,
    /// Memory ran out.
    NoMemory,
}

/// How a replay ended, and the heap of the last state where that is `Done` or `Refused`.
#[derive(Drop)]
pub struct Outcome {
    pub status: Status,
    pub heap: Option<Heap>,
}

impl Status {
    /// The program's exit status: 0 to 5, in the order of the variants.
    pub fn number(&self) -> u8
        ensures { result ≡ number_of self.now }
    {
        match self {
            Status::Done => 0,
            Status::Refused => 1,
            Status::Usage => 2,
            Status::ReadFault => 3,
            Status::WriteFault => 4,
            Status::NoMemory => 5,
        }
    }
}

#[tactic(auto, unfolding(crate::specs::Texts::refusal))]
fn refusal_text(alloc: Global, number: u64, fault: Fault) -> Result<String, AllocError>
    ensures { IfOk result (λ t. string_bytes t ≡ refusal number fault) }
{
    let text = fault.text();
    format!(in alloc; "heapreplay: line {number}: {text}\n")
}

#[tactic(auto, unfolding(crate::specs::Texts::read_message))]
fn read_text() -> &'static [u8]
    ensures { result.now ≡ read_message }
{
    b"heapreplay: read fault\n"
}

#[tactic(auto, unfolding(crate::specs::Texts::write_message))]
fn write_text() -> &'static [u8]
    ensures { result.now ≡ write_message }
{
    b"heapreplay: write fault\n"
}

#[tactic(auto, unfolding(crate::specs::Texts::memory_message))]
fn memory_text() -> &'static [u8]
    ensures { result.now ≡ memory_message }
{
    b"heapreplay: out of memory\n"
}

#[tactic(auto, unfolding(crate::specs::Texts::usage_message))]
fn usage_text() -> &'static [u8]
    ensures { result.now ≡ usage_message }
{
    b"heapreplay: usage: heapreplay [--sweepers N] [--generations G] [--max-lines N] [--workload NUMBER --count COUNT]\n"
}

// Ends with a status and a heap, after its message; or with `WriteFault`, where the message can't be written.
fn tell<E: Sink>(err: &mut E, text: &[u8], status: Status, heap: Option<Heap>) -> Outcome
    ensures { Told status heap text.now result (wrote_of E.written E.flushed E.faults err.old err.new)
        ⊎ Untold text.now result (wrote_of E.written E.flushed E.faults err.old err.new) }
{
    match put(err, text) {
        Ok(()) => Outcome { status, heap },
        Err(_) => Outcome {
            status: Status::WriteFault,
            heap: None,
        },
    }
}

/// Ends for words that are not in form.
pub(crate) fn report_usage<E: Sink>(err: &mut E) -> Outcome
    ensures { Told Status.Usage None usage_message result (wrote_of E.written E.flushed E.faults err.old err.new)
        ⊎ Untold usage_message result (wrote_of E.written E.flushed E.faults err.old err.new) }
{
    tell(err, usage_text(), Status::Usage, None)
}

/// Ends for want of memory.
pub(crate) fn report_memory<E: Sink>(err: &mut E) -> Outcome
    ensures { Told Status.NoMemory None memory_message result (wrote_of E.written E.flushed E.faults err.old err.new)
        ⊎ Untold memory_message result (wrote_of E.written E.flushed E.faults err.old err.new) }
{
    tell(err, memory_text(), Status::NoMemory, None)
}

/// Ends as the lines ended.
pub(crate) fn report<E: Sink>(alloc: Global, err: &mut E, ending: Ending) -> Outcome
    ensures { Reports ending result (wrote_of E.written E.flushed E.faults err.old err.new) }
{
    match ending {
        Ending::All(heap) => Outcome {
            status: Status::Done,
            heap: Some(heap),
        },
        Ending::At(number, fault, heap) => match refusal_text(alloc, number, fault) {
            Ok(text) => tell(err, text.as_bytes(), Status::Refused, Some(heap)),
            Err(_) => report_memory(err),
        },
        Ending::ReadFault => tell(err, read_text(), Status::ReadFault, None),
        Ending::WriteFault => tell(err, write_text(), Status::WriteFault, None),
        Ending::NoMemory => report_memory(err),
    }
}
