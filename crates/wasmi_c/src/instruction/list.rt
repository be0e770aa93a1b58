//! The instruction at a place of a list, which is its number.
ghost use Rattle.std.specs.Prelude.{◌≡◌, slice_get};
ghost use Rattle.wasmi_c.specs.Instruction.{op_numbered};

/// The instruction at a place of a list, if it isn't past its end.
pub fn numbered<Op: Copy>(list: &[Op], number: u16) -> Option<Op>
    ensures { result ≡ slice_get list.now number }
{
    list.get(usize::from(number)).copied()
}

/// The instruction at a place of a list of names with their instructions, if it isn't past its end.
#[tactic(auto, using(crate::proofs::InstructionLemmas::places), unfolding(crate::specs::Instruction::op_numbered))]
pub fn op_numbered<Op: Copy>(list: &[(&str, Op)], number: u16) -> Option<Op>
    ensures { result ≡ op_numbered list.now number }
{
    let (_, op) = list.get(usize::from(number))?;
    Some(*op)
}
