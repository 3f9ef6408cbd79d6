use crate::{census, census_text, generation_text, print_value};
use heap_store::Heap;
use std::test::Fail;
use trace_types::{Operand, Register};

#[test]
fn prints_a_heap(rt: HostRuntime) -> Result<(), Fail> {
    let mut heap = Heap::new(rt.alloc(), 3)?;
    let bytes = Register::new(0).ok_or("no register")?;
    let cell = Register::new(1).ok_or("no register")?;
    let vector = Register::new(2).ok_or("no register")?;
    let pair = Register::new(3).ok_or("no register")?;
    assert_eq!(rt; heap.bytes(1, bytes, 3, 255), Ok(()));
    assert_eq!(rt; heap.set(bytes, 0, Operand::Fixnum(10)), Ok(()));
    assert_eq!(rt; heap.make_box(2, cell, Operand::Nil), Ok(()));
    assert_eq!(rt; heap.vector(4, vector, 2, Operand::Reg(cell)), Ok(()));
    assert_eq!(rt;
        heap.cons(5, pair, Operand::Reg(vector), Operand::Reg(bytes)),
        Ok(())
    );
    assert_eq!(rt; heap.set(cell, 0, Operand::Reg(pair)), Ok(()));
    let mut text = Vec::from_slice(rt.alloc(), b"> ")?;
    assert_eq!(rt; print_value(&heap, Operand::Reg(pair), &mut text), Ok(()));
    assert_eq!(rt; print_value(&heap, Operand::Fixnum(-12), &mut text), Ok(()));
    let counts = census(&heap).ok().ok_or("failed")?;
    census_text(&counts, &mut text)?;
    generation_text(Some(8), &mut text)?;
    assert_eq!(rt;
        text.as_slice(),
        b"> = #0\n#0 pair g0 t0 #1 #2\n#1 vec g0 t0 #3 #3\n#2 bytes g0 t0 0a ff ff\n#3 box g0 t0 #0\n= -12\ng0 4 10\ngen s\n".as_slice()
    );
    Ok(())
}
