//! The commands of a trace.

use crate::operand::{CollectArgs, Mode, Operand};
use crate::register::Register;

/// One line of a trace, read. `d` is the register that the command writes. This project's own.
///
/// A command that makes an object puts it into `d`, in generation 0, for the current thread.
#[derive(Clone, Copy, Debug, PartialEq, Eq)]
pub enum Command {
    /// `thread T`: T, from 0 to 63, becomes the current thread.
    Thread {
        thread: u8,
    },
    /// `cons D A B`: a pair.
    Cons {
        d: Register,
        car: Operand,
        cdr: Operand,
    },
    /// `weak D A B`: a weak pair.
    Weak {
        d: Register,
        car: Operand,
        cdr: Operand,
    },
    /// `eph D K V`: an ephemeron pair.
    Eph {
        d: Register,
        key: Operand,
        value: Operand,
    },
    /// `box D V`: a box.
    MakeBox {
        d: Register,
        value: Operand,
    },
    /// `vec D N V`: a vector of N times V.
    Vector {
        d: Register,
        length: u32,
        value: Operand,
    },
    /// `bytes D N B`: N bytes B.
    Bytes {
        d: Register,
        length: u32,
        byte: u8,
    },
    /// `ivec D N V`: a vector that no collection moves.
    ImmVector {
        d: Register,
        length: u32,
        value: Operand,
    },
    /// `ibytes D N B`: bytes that no collection moves.
    ImmBytes {
        d: Register,
        length: u32,
        byte: u8,
    },
    /// `guard D`: an unordered guardian.
    Guard {
        d: Register,
    },
    /// `oguard D`: an ordered guardian.
    OrderedGuard {
        d: Register,
    },
    /// `reg G O` and `reg G O REP`: a registration with a guardian. Where no representative is named,
    /// it is the object itself.
    Reg {
        guardian: Register,
        object: Operand,
        representative: Option<Operand>,
    },
    /// `take D G`: the first value of the guardian's queue, which leaves it, or `f`.
    Take {
        d: Register,
        guardian: Register,
    },
    /// `get D S I`: field I of what S holds.
    Get {
        d: Register,
        s: Register,
        index: u32,
    },
    /// `set S I V`: field I of what S holds becomes V.
    Set {
        s: Register,
        index: u32,
        value: Operand,
    },
    /// `mov D V`.
    Mov {
        d: Register,
        value: Operand,
    },
    /// `lock V`: adds 1 to the object's lock count.
    Lock {
        value: Operand,
    },
    /// `unlock V`: takes 1 from the object's lock count.
    Unlock {
        value: Operand,
    },
    /// `note K R`: note K, from 0 to 255, is set to the place of the object in R.
    Note {
        k: u8,
        r: Register,
    },
    /// `check K R`: prints whether note K still is the place of the object in R.
    Check {
        k: u8,
        r: Register,
    },
    /// `collect` and `collect C MIN MAX`.
    Collect {
        args: CollectArgs,
    },
    /// `print V`: prints the graph that is reached from V.
    Print {
        value: Operand,
    },
    /// `census`: prints the number of objects and words of each generation.
    Census,
    /// `gen V`: prints a generation.
    Gen {
        value: Operand,
    },
    /// `version 2`: what version 2 adds is there from now on.
    Version,
    /// `tput D T M K V`: the entry of key K in table T gets V, or a new entry of mode M is made.
    TablePut {
        d: Register,
        table: Register,
        mode: Mode,
        key: Operand,
        value: Operand,
    },
    /// `tget D T K`: what the entry of key K in table T has, or `f`.
    TableGet {
        d: Register,
        table: Register,
        key: Operand,
    },
    /// `tdel T K`: the entry of key K leaves table T.
    TableDel {
        table: Register,
        key: Operand,
    },
    /// `path R V`: prints a shortest strong path from one object to another.
    Path {
        from: Register,
        to: Operand,
    },
    /// `size R`: prints how many objects and words are strongly reached.
    Size {
        from: Register,
    },
}
