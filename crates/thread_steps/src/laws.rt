//! A thread of well-formed code always stands at an instruction.

ghost use Rattle.thread_steps.specs.Stands.{BeginStands, StepStands, AnswerStands, PollStands};
ghost use Rattle.thread_steps.specs.Stands.{FreedStands, InstructionIsThere};

/// A thread begins at an instruction, and stays at one by each step, answer and poll, and where a half
/// is freed.
pub fn threads_stand_at_an_instruction()
    ensures begin { BeginStands }
    ensures step { StepStands }
    ensures answer { AnswerStands }
    ensures poll { PollStands }
    ensures freed { FreedStands }
    ensures there { InstructionIsThere }
{}
