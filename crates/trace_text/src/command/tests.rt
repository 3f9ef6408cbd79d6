//! Lines with what the rules say of them.

use super::read_command;
use std::test::Fail;
use trace_types::{CollectArgs, Command, Fault, Mode, Operand, Register};

fn read(line: &[u8]) -> Result<Option<Command>, Fault> {
    if line.len() > 1024 {
        return Err(Fault::TooLong);
    }
    read_command(line)
}

#[test]
fn skips_empty_lines_and_comments(rt: HostRuntime) {
    let lines: [&[u8]; 4] = [b"", b";", b"; a comment", b";\t\xff"];
    for line in lines {
        assert_eq!(rt; read(line), Ok(None), "{line:?}");
    }
}

#[test]
fn refuses_what_is_not_text(rt: HostRuntime) {
    for byte in 0..=255 {
        let want = if 32 <= byte && byte <= 126 {
            Fault::UnknownCommand
        } else {
            Fault::NotText
        };
        assert_eq!(rt; read(&[b'@', byte]), Err(want), "{byte}");
    }
}

#[test]
fn refuses_unknown_commands_and_counts(rt: HostRuntime) {
    let cases: [(&[u8], Fault); 30] = [
        (b"cons r0 1\t2", Fault::NotText),
        (b"nonsense \xff", Fault::NotText),
        (b"Cons r0 1 2", Fault::UnknownCommand),
        (b"con r0 1 2", Fault::UnknownCommand),
        (b"conss r0 1 2", Fault::UnknownCommand),
        (b" cons r0 1 2", Fault::UnknownCommand),
        (b" ; no comment", Fault::UnknownCommand),
        (b"version", Fault::UnknownCommand),
        (b"version 3", Fault::UnknownCommand),
        (b"version 02", Fault::UnknownCommand),
        (b"version 2 2", Fault::UnknownCommand),
        (b"version 2 ", Fault::UnknownCommand),
        (b"cons r0 1", Fault::OperandCount),
        (b"cons x y", Fault::OperandCount),
        (b"cons r0 1 2 3", Fault::OperandCount),
        (b"cons r0  1 2", Fault::OperandCount),
        (b"cons r0 1 2 ", Fault::OperandCount),
        (b"census ", Fault::OperandCount),
        (b"collect ", Fault::OperandCount),
        (b"collect 0 1", Fault::OperandCount),
        (b"collect 0 1 1 1", Fault::OperandCount),
        (b"reg r0", Fault::OperandCount),
        (b"reg r0 1 2 3", Fault::OperandCount),
        (b"guard", Fault::OperandCount),
        (b"guard r0 r1", Fault::OperandCount),
        (b"print", Fault::OperandCount),
        (b"take r0 r1 r2", Fault::OperandCount),
        (b"tput r0 r1 p 1", Fault::OperandCount),
        (b"tput r0 r1 p 1 2 3", Fault::OperandCount),
        (b"size r0 r1", Fault::OperandCount),
    ];
    for (line, fault) in cases {
        assert_eq!(rt; read(line), Err(fault), "{line:?}");
    }
}

#[test]
fn refuses_operands(rt: HostRuntime) {
    let cases: [(&[u8], Fault); 52] = [
        (b"guard r4096", Fault::BadRegister),
        (b"guard r", Fault::BadRegister),
        (b"guard r01", Fault::BadRegister),
        (b"guard r-1", Fault::BadRegister),
        (b"guard R1", Fault::BadRegister),
        (b"guard 1", Fault::BadRegister),
        (b"guard ", Fault::BadRegister),
        (b"print r4096", Fault::BadRegister),
        (b"print rx", Fault::BadRegister),
        (b"print ", Fault::BadNumber),
        (b"print 01", Fault::BadNumber),
        (b"print -0", Fault::BadNumber),
        (b"print -01", Fault::BadNumber),
        (b"print -", Fault::BadNumber),
        (b"print --1", Fault::BadNumber),
        (b"print +1", Fault::BadNumber),
        (b"print 1152921504606846976", Fault::BadNumber),
        (b"print -1152921504606846977", Fault::BadNumber),
        (b"print 18446744073709551617", Fault::BadNumber),
        (b"print 1a", Fault::BadNumber),
        (b"print nill", Fault::BadNumber),
        (b"print tt", Fault::BadNumber),
        (b"print F", Fault::BadNumber),
        (b"vec r0 4294967296 nil", Fault::BadNumber),
        (b"vec r0 -1 nil", Fault::BadNumber),
        (b"vec r0 007 nil", Fault::BadNumber),
        (b"bytes r0 1 256", Fault::BadNumber),
        (b"bytes r0 1 nil", Fault::BadNumber),
        (b"note 256 r0", Fault::BadNumber),
        (b"note 00 r0", Fault::BadNumber),
        (b"thread 64", Fault::BadThread),
        (b"thread 01", Fault::BadThread),
        (b"thread r0", Fault::BadThread),
        (b"thread -1", Fault::BadThread),
        (b"collect 8 1 1", Fault::BadGeneration),
        (b"collect s s s", Fault::BadGeneration),
        (b"collect 0 8 1", Fault::BadGeneration),
        (b"collect 0 1 00", Fault::BadGeneration),
        (b"collect 0 1 S", Fault::BadGeneration),
        (b"collect 0 1 ", Fault::BadGeneration),
        (b"tput r0 r1 x 1 2", Fault::BadNumber),
        (b"tput r0 r1 pp 1 2", Fault::BadNumber),
        (b"tput r0 r0 p 1 2", Fault::BadRegister),
        (b"tput r0 r1 p r0 2", Fault::BadRegister),
        (b"tput r0 r1 p 1 r0", Fault::BadRegister),
        // from left to right
        (b"cons r4096 x 1", Fault::BadRegister),
        (b"cons r0 x r4096", Fault::BadNumber),
        (b"vec r0 x r4096", Fault::BadNumber),
        (b"note 256 r4096", Fault::BadNumber),
        (b"tput r0 r1 x r0 1", Fault::BadNumber),
        (b"tput r0 r0 x 1 1", Fault::BadRegister),
        (b"tput r0 r1 p x r0", Fault::BadNumber),
    ];
    for (line, fault) in cases {
        assert_eq!(rt; read(line), Err(fault), "{line:?}");
    }
}

#[test]
fn reads_each_class_at_its_ends(rt: HostRuntime) -> Result<(), Fail> {
    let least = Register::new(0).ok_or("r0")?;
    let greatest = Register::new(4095).ok_or("r4095")?;
    let cases: [(&[u8], Command); 16] = [
        (b"guard r0", Command::Guard { d: least }),
        (b"guard r4095", Command::Guard { d: greatest }),
        (
            b"print r4095",
            Command::Print {
                value: Operand::Reg(greatest),
            },
        ),
        (
            b"print 0",
            Command::Print {
                value: Operand::Fixnum(0),
            },
        ),
        (
            b"print 1152921504606846975",
            Command::Print {
                value: Operand::Fixnum(1_152_921_504_606_846_975),
            },
        ),
        (
            b"print -1",
            Command::Print {
                value: Operand::Fixnum(-1),
            },
        ),
        (
            b"print -1152921504606846976",
            Command::Print {
                value: Operand::Fixnum(-1_152_921_504_606_846_976),
            },
        ),
        (
            b"print nil",
            Command::Print {
                value: Operand::Nil,
            },
        ),
        (
            b"print t",
            Command::Print {
                value: Operand::True,
            },
        ),
        (
            b"print f",
            Command::Print {
                value: Operand::False,
            },
        ),
        (b"thread 0", Command::Thread { thread: 0 }),
        (b"thread 63", Command::Thread { thread: 63 }),
        (b"note 255 r0", Command::Note { k: 255, r: least }),
        (
            b"collect",
            Command::Collect {
                args: CollectArgs::Plain,
            },
        ),
        (
            b"collect 0 0 7",
            Command::Collect {
                args: CollectArgs::Explicit {
                    cg: 0,
                    min: 0,
                    max: 7,
                },
            },
        ),
        (
            b"collect 7 s s",
            Command::Collect {
                args: CollectArgs::Explicit {
                    cg: 7,
                    min: 8,
                    max: 8,
                },
            },
        ),
    ];
    for (line, command) in cases {
        assert_eq!(rt; read(line), Ok(Some(command)), "{line:?}");
    }
    Ok(())
}

#[test]
fn reads_each_maker(rt: HostRuntime) -> Result<(), Fail> {
    let d = Register::new(1).ok_or("r1")?;
    let other = Operand::Reg(Register::new(2).ok_or("r2")?);
    let cases: [(&[u8], Command); 10] = [
        (
            b"cons r1 r2 t",
            Command::Cons {
                d,
                car: other,
                cdr: Operand::True,
            },
        ),
        (
            b"weak r1 r2 t",
            Command::Weak {
                d,
                car: other,
                cdr: Operand::True,
            },
        ),
        (
            b"eph r1 r2 t",
            Command::Eph {
                d,
                key: other,
                value: Operand::True,
            },
        ),
        (b"box r1 r2", Command::MakeBox { d, value: other }),
        (
            b"vec r1 4294967295 r2",
            Command::Vector {
                d,
                length: 4_294_967_295,
                value: other,
            },
        ),
        (
            b"bytes r1 0 255",
            Command::Bytes {
                d,
                length: 0,
                byte: 255,
            },
        ),
        (
            b"ivec r1 0 r2",
            Command::ImmVector {
                d,
                length: 0,
                value: other,
            },
        ),
        (
            b"ibytes r1 4294967295 0",
            Command::ImmBytes {
                d,
                length: 4_294_967_295,
                byte: 0,
            },
        ),
        (b"oguard r1", Command::OrderedGuard { d }),
        (b"mov r1 r2", Command::Mov { d, value: other }),
    ];
    for (line, command) in cases {
        assert_eq!(rt; read(line), Ok(Some(command)), "{line:?}");
    }
    Ok(())
}

#[test]
fn reads_each_other_command(rt: HostRuntime) -> Result<(), Fail> {
    let r = Register::new(1).ok_or("r1")?;
    let s = Register::new(2).ok_or("r2")?;
    let value = Operand::Reg(s);
    let cases: [(&[u8], Command); 17] = [
        (
            b"reg r1 r2",
            Command::Reg {
                guardian: r,
                object: value,
                representative: None,
            },
        ),
        (
            b"reg r1 r2 9",
            Command::Reg {
                guardian: r,
                object: value,
                representative: Some(Operand::Fixnum(9)),
            },
        ),
        (b"take r1 r2", Command::Take { d: r, guardian: s }),
        (b"get r1 r2 0", Command::Get { d: r, s, index: 0 }),
        (
            b"set r1 4294967295 r2",
            Command::Set {
                s: r,
                index: 4_294_967_295,
                value,
            },
        ),
        (b"lock r2", Command::Lock { value }),
        (b"unlock r2", Command::Unlock { value }),
        (b"check 0 r1", Command::Check { k: 0, r }),
        (b"census", Command::Census),
        (b"gen r2", Command::Gen { value }),
        (b"version 2", Command::Version),
        (
            b"tput r1 r2 e r3 -7",
            Command::TablePut {
                d: r,
                table: s,
                mode: Mode::Eph,
                key: Operand::Reg(Register::new(3).ok_or("r3")?),
                value: Operand::Fixnum(-7),
            },
        ),
        (
            b"tput r1 r2 w r2 r2",
            Command::TablePut {
                d: r,
                table: s,
                mode: Mode::Weak,
                key: value,
                value,
            },
        ),
        (
            b"tget r1 r2 r2",
            Command::TableGet {
                d: r,
                table: s,
                key: value,
            },
        ),
        (
            b"tdel r1 r2",
            Command::TableDel {
                table: r,
                key: value,
            },
        ),
        (b"path r1 r2", Command::Path { from: r, to: value }),
        (b"size r1", Command::Size { from: r }),
    ];
    for (line, command) in cases {
        assert_eq!(rt; read(line), Ok(Some(command)), "{line:?}");
    }
    Ok(())
}
