//! A small interpreter: a list of instructions that runs on a machine under a limiter. Modules,
//! functions and the validation of types are left out.
ghost use Rattle.std.specs.Prelude.{◌≡◌, ◌<◌, Some, List, length, true, false, IsSome, MatchBool};
ghost use Rattle.wasmi_meter.specs.Limiter.{optional_rules};
ghost use Rattle.wasmi_core.specs.State.{Turn, world};
ghost use Rattle.wasmi_core.specs.Steps.{Run};
ghost use Rattle.wasmi_example_callers.specs.Interpreter.{action_of, action_at, place_after, IsGrowth, CarriesOut, is_out_of_fuel, fuel_taken, StepsAt, ExecutesProgram, PaysProgramFuel, IsWithinSteps, HasRun};

use wasmi_core::{
    BinaryOp, Call, FuelError, Machine, RawVal, ReadAs, Reply, ResourceLimiter, StoreOp,
    VectorLoadOp, laws, wasm,
};

/// One instruction. Locals are the registers of the machine, 0 to 15, and the memory is its memory
/// 0. An address is a local and an offset; `dst` is the local that takes the result.
#[derive(Clone, Copy)]
pub enum Instruction {
    /// `i64.const`
    Constant { dst: u8, number: u64 },
    /// `local.get` and `local.set`
    Copy { dst: u8, src: u8 },
    /// `i64.add`
    Add { dst: u8, lhs: u8, rhs: u8 },
    /// `i64.mul`
    Multiply { dst: u8, lhs: u8, rhs: u8 },
    /// `i8x16.add`
    AddBytes { dst: u8, lhs: u8, rhs: u8 },
    /// `v128.load64_zero`, of whose vector the number of `i64.load` is the low word.
    Load { dst: u8, ptr: u8, offset: u64 },
    /// `i64.store`
    Store { ptr: u8, offset: u64, value: u8 },
    /// `memory.grow` by as many pages as a local says. The result is the old size in pages. It is
    /// -1, which is 2^64 - 1, if the growth is refused: out of bounds, denied by the limiter, out
    /// of memory, or more than the fuel that is left pays for.
    Grow { dst: u8, pages: u8 },
    /// `memory.size`
    Size { dst: u8 },
    /// `br` to an index of the program
    Branch(usize),
    /// `br_if` to an index of the program, if the low word of a local isn't 0
    BranchIf { condition: u8, target: usize },
    /// `return`
    Return(u8),
}

/// What an instruction does, once its locals are read.
#[derive(Drop)]
pub enum Action {
    /// The machine executes a call, and the next instruction follows.
    Calls(Call),
    /// The memory grows by a number of pages, a register takes the result, and the next instruction
    /// follows.
    Grows { dst: u8, pages: u64 },
    /// The next instruction follows.
    Continues,
    /// The instruction of an index follows.
    Branches(usize),
    /// The program returns a value.
    Returns(RawVal),
}

/// How a program ends.
#[derive(Debug, PartialEq, Eq, Drop)]
pub enum Ending {
    /// It returned a value.
    Returned(RawVal),
    /// A call was refused: an access was out of bounds, or there is no such register or memory.
    Refused(Reply),
    /// There is no next instruction, or it reads a register or a memory that isn't there, or it is
    /// a growth whose `dst` isn't there. No fuel is taken, and nothing has happened.
    Undefined,
    /// There is a next instruction, but the machine is metered and has no fuel for it.
    OutOfFuel,
}

/// How a program ended and at which instruction, and how many instructions were executed before.
#[derive(Debug, PartialEq, Eq, Drop)]
pub struct Outcome {
    /// How it ended, or `None` if it has executed as many instructions as it may.
    pub ending: Option<Ending>,
    /// The index of the instruction at which it ended.
    pub place: usize,
    /// How many instructions were executed before that one.
    pub executed: u64,
}

impl Instruction {
    /// What it does on a machine, if the registers and the memory that it reads are there.
    pub fn action(self, machine: &Machine) -> Option<Action>
        ensures { result ≡ action_of self machine.now }
    {
        match self {
            Instruction::Constant { dst, number } => Some(set(dst, RawVal::from(number))),
            Instruction::Copy { dst, src } => Some(set(dst, machine.register(src)?)),
            Instruction::Add { dst, lhs, rhs } => {
                let (lhs, rhs) = machine.register(lhs).zip(machine.register(rhs))?;
                Some(set(dst, wasm::i64_add(lhs.read_as(), rhs.read_as()).into()))
            }
            Instruction::Multiply { dst, lhs, rhs } => {
                let (lhs, rhs) = machine.register(lhs).zip(machine.register(rhs))?;
                Some(set(dst, wasm::i64_mul(lhs.read_as(), rhs.read_as()).into()))
            }
            Instruction::AddBytes { dst, lhs, rhs } => Some(Action::Calls(Call::Binary {
                op: BinaryOp::I8x16Add,
                dst,
                a: lhs,
                b: rhs,
            })),
            Instruction::Load { dst, ptr, offset } => Some(Action::Calls(Call::VectorLoad {
                op: VectorLoadOp::V128Load64Zero,
                dst,
                memory: 0,
                ptr: machine.register(ptr)?.to_bits64(),
                offset,
            })),
            Instruction::Store { ptr, offset, value } => {
                let (ptr, value) = machine.register(ptr).zip(machine.register(value))?;
                Some(Action::Calls(Call::Store {
                    op: StoreOp::Store64,
                    memory: 0,
                    ptr: ptr.to_bits64(),
                    offset,
                    value,
                }))
            }
            Instruction::Grow { dst, pages } => {
                let (_, pages) = machine.register(dst).zip(machine.register(pages))?;
                Some(Action::Grows {
                    dst,
                    pages: pages.to_bits64(),
                })
            }
            Instruction::Size { dst } => Some(set(dst, RawVal::from(machine.memory(0)?.size()))),
            Instruction::Branch(target) => Some(Action::Branches(target)),
            Instruction::BranchIf { condition, target } => {
                if machine.register(condition)?.to_bits64() == 0 {
                    Some(Action::Continues)
                } else {
                    Some(Action::Branches(target))
                }
            }
            Instruction::Return(local) => Some(Action::Returns(machine.register(local)?)),
        }
    }
}

/// A register takes a value.
fn set(dst: u8, value: RawVal) -> Action
    ensures { result ≡ Action.Calls (Call.SetRegister dst value) }
{
    Action::Calls(Call::SetRegister { dst, value })
}

/// What the instruction of a place does, if there is one.
fn action_at(program: &[Instruction], place: usize, machine: &Machine) -> Option<Action>
    ensures action { result ≡ action_at program.now place machine.now }
    ensures there { IsSome result → place < length program.now }
{
    program.get(place)?.action(machine)
}

/// Takes one unit of fuel, if the machine is metered. Returns whether there was one to take.
#[tactic(auto, using(crate::proofs::InterpreterLemmas::told))]
fn take_fuel(machine: &mut Machine) -> bool
    ensures { MatchBool result
        ((is_out_of_fuel machine.old.meter ≡ false) × (machine.new ≡ fuel_taken machine.old))
        ((is_out_of_fuel machine.old.meter ≡ true) × (machine.new ≡ machine.old)) }
{
    !matches!(machine.consume_fuel(1), Err(FuelError::OutOfFuel { .. }))
}

/// What follows the reply to a call: the next place, or how the program ends.
fn place_after(reply: Reply, next: usize) -> Result<usize, Ending>
    ensures { result ≡ place_after reply next }
{
    match reply {
        Reply::Done => Ok(next),
        reply => Err(Ending::Refused(reply)),
    }
}

/// Grows the memory, and sets a register to the result of `memory.grow`. Returns the reply to the
/// last of these calls.
fn grow<L: ResourceLimiter>(dst: u8, pages: u64, machine: &mut Machine, limiter: &mut L) -> Reply
    ensures { (turns : List Turn) × Run (optional_rules L.rules)
        (world machine.old (Some limiter.old)) turns (world machine.new (Some limiter.new))
        × IsGrowth dst pages turns result }
{
    let size = match machine.step_lending(&Call::GrowMemory { memory: 0, pages }, limiter) {
        Reply::Number(size) => size,
        Reply::Memory(_) => u64::MAX,
        reply => return reply,
    };
    let value = RawVal::from(size);
    machine.step_lending(&Call::SetRegister { dst, value }, limiter)
}

/// Carries out an action. Returns the place that follows, or how the program ends.
fn act<L: ResourceLimiter>(
    action: Action,
    next: usize,
    machine: &mut Machine,
    limiter: &mut L,
) -> Result<usize, Ending>
    ensures { (turns : List Turn) × Run (optional_rules L.rules)
        (world machine.old (Some limiter.old)) turns (world machine.new (Some limiter.new))
        × CarriesOut action next turns result }
{
    match action {
        Action::Calls(call) => place_after(machine.step_lending(&call, limiter), next),
        Action::Grows { dst, pages } => place_after(grow(dst, pages, machine, limiter), next),
        Action::Continues => Ok(next),
        Action::Branches(target) => Ok(target),
        Action::Returns(value) => Err(Ending::Returned(value)),
    }
}

/// Executes the instruction of a place, for one unit of fuel if the machine is metered. Returns the
/// next place, or how the program ends. The fuel is taken before the instruction does anything, and
/// stays taken if its call is refused.
pub fn step<L: ResourceLimiter>(
    program: &[Instruction],
    place: usize,
    machine: &mut Machine,
    limiter: &mut L,
) -> Result<usize, Ending>
    ensures { (turns : List Turn) × StepsAt (optional_rules L.rules) program.now place
        (world machine.old (Some limiter.old)) turns result
        (world machine.new (Some limiter.new)) }
{
    let Some(action) = action_at(program, place, machine) else {
        return Err(Ending::Undefined);
    };
    if !take_fuel(machine) {
        return Err(Ending::OutOfFuel);
    }
    act(action, place + 1, machine, limiter)
}

/// Executes a program from its first instruction on. It executes at most `steps` instructions, so
/// it returns, whatever the program is. If the machine is metered, each instruction takes one unit
/// of fuel, also the one at which the program returned or was refused. While metering is on, the
/// fuel that was left before is the fuel that is left afterwards, these units, and what growths
/// were charged.
///
/// What it does to the machine and the limiter is what a run does, so each law over runs applies.
/// That run has a call that sets what is left wherever a unit of fuel is taken, so the laws on fuel
/// say little of it: `executed` says the same of the program itself.
pub fn execute<L: ResourceLimiter>(
    program: &[Instruction],
    machine: &mut Machine,
    limiter: &mut L,
    steps: u64,
) -> Outcome
    ensures executed { (turns : List Turn) × ExecutesProgram (optional_rules L.rules) program.now
        (world machine.old (Some limiter.old)) turns result (world machine.new (Some limiter.new))
        × PaysProgramFuel machine.old.meter turns result machine.new.meter }
    ensures steps { IsWithinSteps steps result }
    ensures run { HasRun (optional_rules L.rules) (world machine.old (Some limiter.old))
        (world machine.new (Some limiter.new)) }
{
    laws::runs_join::<L>();
    laws::charges_are_spent::<L>();
    laws::fuel_bounds_writing::<L>();
    let mut place = 0;
    for executed in 0..steps {
        match step(program, place, machine, limiter) {
            Ok(next) => place = next,
            Err(ending) => {
                return Outcome {
                    ending: Some(ending),
                    place,
                    executed,
                };
            }
        }
    }
    Outcome {
        ending: None,
        place,
        executed: steps,
    }
}
