//! The commands.

ghost use Rattle.std.specs.Prelude.{◌≡◌, ◌+◌};
ghost use Rattle.trace_types.specs.Steps.{step, collected};
ghost use Rattle.trace_types.specs.WellFormed.{IsWellFormed, IsNext};
ghost use Rattle.plain_model.specs.Bytes.{HasBytes};
ghost use Rattle.plain_model.specs.Stepping.{Answers, CountsBelow};

use crate::arguments::{Arguments, plain_arguments};
use crate::census::push_census;
use crate::finder::{path, push_size};
use crate::lines::{push_generation_of, push_path};
use crate::print::push_print;
use crate::state::State;
use crate::stop::Stop;
use std::alloc::Global;
use trace_types::{CollectArgs, Command, Fault, Kind, Operand, Register};

impl State {
    /// `thread`.
    #[tactic(auto, unfolding(trace_types::specs::Steps::step))]
    fn set_thread(&mut self, alloc: Global, thread: u8) -> Result<Vec<u8>, Stop>
        ensures { Answers (step self.old 0 (Command.Thread thread)) result self.old self.new }
    {
        self.thread = thread;
        Ok(Vec::new(alloc))
    }

    /// `version`.
    #[tactic(auto, unfolding(trace_types::specs::Steps::step))]
    fn set_version(&mut self, alloc: Global, line: u32) -> Result<Vec<u8>, Stop>
        ensures { Answers (step self.old line Command.Version) result self.old self.new }
    {
        if line != 1 {
            return Err(Stop::Fault(Fault::UnknownCommand));
        }
        self.version = 2;
        Ok(Vec::new(alloc))
    }

    /// `print`.
    #[tactic(auto, unfolding(trace_types::specs::Steps::step))]
    fn print(&self, alloc: Global, value: Operand) -> Result<Vec<u8>, Stop>
        requires { HasBytes self.now.graph }
        ensures { Answers (step self.now 0 (Command.Print value)) result self.now self.now }
    {
        let mut text = Vec::new(alloc);
        push_print(alloc, self, self.operand_value(value), &mut text)?;
        Ok(text)
    }

    /// `census`.
    #[tactic(auto, unfolding(trace_types::specs::Steps::step))]
    fn census(&self, alloc: Global) -> Result<Vec<u8>, Stop>
        ensures { Answers (step self.now 0 Command.Census) result self.now self.now }
    {
        let mut text = Vec::new(alloc);
        push_census(alloc, self, &mut text)?;
        Ok(text)
    }

    /// `gen`.
    #[tactic(auto, unfolding(trace_types::specs::Steps::step))]
    fn generation(&self, alloc: Global, value: Operand) -> Result<Vec<u8>, Stop>
        ensures { Answers (step self.now 0 (Command.Gen value)) result self.now self.now }
    {
        let mut text = Vec::new(alloc);
        push_generation_of(self, self.operand_value(value), &mut text)?;
        Ok(text)
    }

    /// `path`.
    #[tactic(auto, unfolding(trace_types::specs::Steps::step))]
    fn path(&self, alloc: Global, from: Register, to: Operand) -> Result<Vec<u8>, Stop>
        ensures { Answers (step self.now 0 (Command.Path from to)) result self.now self.now }
    {
        let (a, _) = self.object_of(self.register_value(from))?;
        let (b, _) = self.object_of(self.operand_value(to))?;
        let walk = path(alloc, self, a, b)?;
        let mut text = Vec::new(alloc);
        push_path(walk, &mut text)?;
        Ok(text)
    }

    /// `size`.
    #[tactic(auto, unfolding(trace_types::specs::Steps::step))]
    fn size(&self, alloc: Global, from: Register) -> Result<Vec<u8>, Stop>
        ensures { Answers (step self.now 0 (Command.Size from)) result self.now self.now }
    {
        let mut text = Vec::new(alloc);
        push_size(alloc, self, self.register_value(from), &mut text)?;
        Ok(text)
    }

    // One `collect` without arguments more.
    fn count_collection(&mut self, line: u32)
        requires { CountsBelow line self.old }
        ensures { self.new ≡ record self.old { collects = self.old.collects + 1 } }
    {
        self.collects += 1;
    }

    // `collect` without arguments.
    fn collect_plain(&mut self, alloc: Global, line: u32) -> Result<Vec<u8>, Stop>
        requires { CountsBelow line self.old }
        ensures { Answers (collected self.old CollectArgs.Plain) result self.old self.new }
    {
        self.count_collection(line);
        let arguments = plain_arguments(self.oldest, self.collects);
        self.collect(alloc, arguments)?;
        Ok(Vec::new(alloc))
    }

    // `collect` with arguments.
    fn collect_explicit(&mut self, alloc: Global, arguments: Arguments) -> Result<Vec<u8>, Stop>
        ensures { Answers
            (collected self.old (CollectArgs.Explicit arguments.cg arguments.least arguments.greatest))
            result self.old self.new }
    {
        if !arguments.are_allowed(self.version, self.oldest) {
            return Err(Stop::Fault(Fault::BadGeneration));
        }
        self.collect(alloc, arguments)?;
        Ok(Vec::new(alloc))
    }

    /// `collect`.
    fn collect_as(&mut self, alloc: Global, line: u32, args: CollectArgs) -> Result<Vec<u8>, Stop>
        requires { CountsBelow line self.old }
        ensures { Answers (collected self.old args) result self.old self.new }
    {
        match args {
            CollectArgs::Plain => self.collect_plain(alloc, line),
            CollectArgs::Explicit { cg, min, max } => {
                let arguments = Arguments {
                    cg,
                    least: min,
                    greatest: max,
                };
                self.collect_explicit(alloc, arguments)
            }
        }
    }

    /// Performs the command of a line, and gives the text that it prints. The line's number is above every
    /// number in the state, and a new object is born on it.
    ///
    /// A fault comes by kinds, indexes, lengths and the state, and leaves the state as it was. Where memory runs
    /// out, the state may be any state.
    #[tactic(auto, using(crate::proofs::Parts::bytes_of_well_formed, crate::proofs::Parts::line_is_new), unfolding(trace_types::specs::Steps::step))]
    pub fn step(&mut self, alloc: Global, line: u32, command: &Command) -> Result<Vec<u8>, Stop>
        requires well_formed { IsWellFormed self.old }
        requires next { IsNext self.old line }
        requires counts { CountsBelow line self.old }
        ensures { Answers (step self.old line command.now) result self.old self.new }
    {
        match *command {
            Command::Thread { thread } => self.set_thread(alloc, thread),
            Command::Cons { d, car, cdr } => self.make_pair(alloc, line, d, Kind::Pair, car, cdr),
            Command::Weak { d, car, cdr } => self.make_pair(alloc, line, d, Kind::Weak, car, cdr),
            Command::Eph { d, key, value } => self.make_pair(alloc, line, d, Kind::Eph, key, value),
            Command::MakeBox { d, value } => self.make_box(alloc, line, d, value),
            Command::Vector { d, length, value } => {
                self.make_vector(alloc, line, d, Kind::Vector, length, value)
            }
            Command::Bytes { d, length, byte } => {
                self.make_bytes(alloc, line, d, Kind::Bytes, length, byte)
            }
            Command::ImmVector { d, length, value } => {
                self.make_vector(alloc, line, d, Kind::ImmVector, length, value)
            }
            Command::ImmBytes { d, length, byte } => {
                self.make_bytes(alloc, line, d, Kind::ImmBytes, length, byte)
            }
            Command::Guard { d } => self.make_guardian(alloc, line, d, Kind::Guard),
            Command::OrderedGuard { d } => self.make_guardian(alloc, line, d, Kind::OrderedGuard),
            Command::Reg {
                guardian,
                object,
                representative,
            } => self.register(alloc, line, guardian, object, representative),
            Command::Take { d, guardian } => self.take(alloc, d, guardian),
            Command::Get { d, s, index } => self.get(alloc, d, s, index),
            Command::Set { s, index, value } => self.set(alloc, s, index, value),
            Command::Mov { d, value } => self.mov(alloc, d, value),
            Command::Lock { value } => self.lock(alloc, line, value),
            Command::Unlock { value } => self.unlock(alloc, value),
            Command::Note { k, r } => self.note(alloc, k, r),
            Command::Check { k, r } => self.check(alloc, k, r),
            Command::Collect { args } => self.collect_as(alloc, line, args),
            Command::Print { value } => self.print(alloc, value),
            Command::Census => self.census(alloc),
            Command::Gen { value } => self.generation(alloc, value),
            Command::Version => self.set_version(alloc, line),
            Command::TablePut {
                d,
                table,
                mode,
                key,
                value,
            } => self.table_put(alloc, line, d, table, mode, key, value),
            Command::TableGet { d, table, key } => self.table_get(alloc, d, table, key),
            Command::TableDel { table, key } => self.table_delete(alloc, table, key),
            Command::Path { from, to } => self.path(alloc, from, to),
            Command::Size { from } => self.size(alloc, from),
        }
    }
}
