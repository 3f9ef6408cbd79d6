//! What the calls answer, by worked rows.

ghost use Rattle.std.specs.Prelude.{◌<◌};

use crate::{Heap, HeapError};
use gc_words::Value;
use std::test::Fail;
use trace_types::{Fault, Operand, Register};

fn register(n: u32) -> Result<Register, Fail> {
    let found = Register::new(n).ok_or("no register")?;
    Ok(found)
}

#[test]
fn a_box_holds_a_pair(rt: HostRuntime) -> Result<(), Fail> {
    let mut heap = Heap::new(rt.alloc(), 3)?;
    let r = register(4095)?;
    let greatest = Operand::Fixnum(1152921504606846975);
    let least = Operand::Fixnum(-1152921504606846976);
    assert_eq!(rt; heap.cons(1, r, greatest, least), Ok(()));
    assert_eq!(rt; heap.make_box(2, r, Operand::Reg(r)), Ok(()));
    assert_eq!(rt; heap.get(r, r, 0), Ok(()));
    assert_eq!(rt; heap.get(r, r, 1), Ok(()));
    let last = heap.value_of(Operand::Reg(r));
    assert_eq!(rt; last, Ok(Value::Fixnum(-1152921504606846976)));
    Ok(())
}

#[test]
fn a_byte_is_set_alone(rt: HostRuntime) -> Result<(), Fail> {
    let mut heap = Heap::new(rt.alloc(), 3)?;
    let bytes = register(0)?;
    let got = register(1)?;
    assert_eq!(rt; heap.bytes(1, bytes, 11, 10), Ok(()));
    assert_eq!(rt; heap.set(bytes, 9, Operand::Fixnum(255)), Ok(()));
    for (index, byte) in [(8, 10), (9, 255), (10, 10)] {
        assert_eq!(rt; heap.get(got, bytes, index), Ok(()));
        assert_eq!(rt;
            heap.value_of(Operand::Reg(got)),
            Ok(Value::Fixnum(byte)),
            "at {index}"
        );
    }
    Ok(())
}

#[test]
fn faults_of_set_in_their_order(rt: HostRuntime) -> Result<(), Fail> {
    let mut heap = Heap::new(rt.alloc(), 3)?;
    let nothing = register(0)?;
    let vector = register(1)?;
    let bytes = register(2)?;
    assert_eq!(rt; heap.vector(1, vector, 200, Operand::Nil), Ok(()));
    assert_eq!(rt; heap.bytes(2, bytes, 3, 0), Ok(()));
    for (into, index, value, fault) in [
        (nothing, 0, 0, Fault::WrongKind),
        (vector, 200, 0, Fault::BadIndex),
        (bytes, 3, 255, Fault::BadIndex),
        (bytes, 3, 256, Fault::WrongKind),
        (bytes, 0, -1, Fault::WrongKind),
    ] {
        let answer = heap.set(into, index, Operand::Fixnum(value));
        assert_eq!(rt; answer, Err(HeapError::Fault(fault)), "{value} at {index}");
    }
    Ok(())
}

#[test]
fn a_failed_heap_answers_failed(rt: HostRuntime) -> Result<(), Fail> {
    let r = register(0)?;
    for call in 0..9u32 {
        let mut heap = Heap::new(rt.alloc(), 7)?;
        heap.fail();
        let answer = match call {
            0 => heap.cons(1, r, Operand::Nil, Operand::Nil),
            1 => heap.make_box(1, r, Operand::Nil),
            2 => heap.vector(1, r, 1000001, Operand::Nil),
            3 => heap.bytes(1, r, 1000001, 0),
            4 => heap.get(r, r, 0),
            5 => heap.set(r, 0, Operand::Nil),
            6 => heap.mov(r, Operand::Nil),
            7 => heap.select_thread(0),
            _ => heap.version_two(1),
        };
        assert_eq!(rt; answer, Err(HeapError::Failed), "call {call}");
        assert_eq!(rt; heap.value_of(Operand::Nil), Err(HeapError::Failed));
        assert_eq!(rt; heap.generation_of(Operand::Nil), Err(HeapError::Failed));
    }
    Ok(())
}

#[test]
fn the_bound_rises_with_objects_alone(rt: HostRuntime) -> Result<(), Fail> {
    let mut heap = Heap::new(rt.alloc(), 3)?;
    let low = register(7)?;
    let high = register(4095)?;
    assert_eq!(rt; heap.mov(high, Operand::True), Ok(()));
    assert_eq!(rt; heap.used_registers(), 0);
    assert_eq!(rt; heap.cons(1, low, Operand::Nil, Operand::Nil), Ok(()));
    assert_eq!(rt; heap.used_registers(), 8);
    assert_eq!(rt; heap.mov(high, Operand::Reg(low)), Ok(()));
    assert_eq!(rt; heap.used_registers(), 4096);
    Ok(())
}
