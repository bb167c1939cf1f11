//! The call, step by step: the words, the file, what is done with it, and the writing.

ghost use Rattle.std.specs.Prelude.{◌≡◌, ℕ, List, [], map, IfOk, IfErr};
ghost use Rattle.form_reader.specs.Form.{HasForm};
ghost use Rattle.filc_top.specs.Clauses.{SaysEnding};
ghost use Rattle.filc_top.specs.Commands.{IsNoCommand};
ghost use Rattle.filc_top.specs.Headline.{devices, streams, ending_of, IsSilent, IsCause, IsRunOf, IsWritten, IsOutcome};
ghost use Rattle.filc_top.specs.Steps.{name_in, HasRead, EndsReading, EndsFrontEnd, RunsForm};

use crate::command::{Command, command_of};
use crate::ending::{Ending, NOT_BUILT};
use crate::front::{check_of_file, code_of_file};
use crate::lines::write_line;
use code_gen::compile;
use code_thread::CodeThread;
use filc_io::{FileFault, Files, Sink, Source, write_all_of};
use form_reader::{ReadFault, read};
use form_tree::Program;
use ideal_machine::Finish;
use single_thread::{MOST_OUTPUT_BYTES, laws, run};
use std::alloc::Global;

/// Carries out the words that stand after the program's name. The input is not read yet.
pub fn filc<'a, F: Files, I: Source, O: Sink, E: Sink>(
    alloc: Global,
    words: &'a [&'a str],
    files: &mut F,
    input: &mut I,
    out: &mut O,
    err: &mut E,
) -> Ending
    ensures outcome { IsOutcome (map (λ word. word.now) words.now)
        (devices (F.state files.old) (O.state out.old) (E.state err.old))
        (devices (F.state files.new) (O.state out.new) (E.state err.new)) result }
    ensures endings { SaysEnding (map (λ word. word.now) words.now)
        (devices (F.state files.old) (O.state out.old) (E.state err.old))
        (devices (F.state files.new) (O.state out.new) (E.state err.new)) result }
    ensures no_file { IsNoCommand (map (λ word. word.now) words.now) → files.new ≡ files.old }
    ensures contents { (F.state files.new).contents ≡ (F.state files.old).contents }
    ensures input { input.new ≡ input.old }
{
    let mut output = Vec::new(alloc);
    let cause = cause_of(alloc, words, files, &mut output);
    write_outcome(out, err, cause, &output)
}

/// How the call ends but for the writing. What is put out goes into `output`.
fn cause_of<F: Files>(alloc: Global, words: &[&str], files: &mut F, output: &mut Vec<u8>) -> Ending
    requires { output.old.items ≡ [] }
    ensures caused { IsCause (map (λ word. word.now) words.now)
        (F.state files.old) (F.state files.new) result output.new.items }
    ensures no_file { IsNoCommand (map (λ word. word.now) words.now) → files.new ≡ files.old }
    ensures contents { (F.state files.new).contents ≡ (F.state files.old).contents }
{
    let Some(command) = command_of(words) else {
        return Ending::Usage;
    };
    let file = match front_of_file(alloc, files, name_of(&command)) {
        Ok(file) => file,
        Err(cause) => return cause,
    };
    match command {
        Command::Run(_, turns) => match run_of_file(alloc, &file, turns, output) {
            Ok(ending) => ending,
            Err(cause) => cause,
        },
        Command::Check(_) => check_of_file(alloc, &file, output),
        Command::Code(_) => code_of_file(alloc, &file, output),
    }
}

/// The name of the file that a command is for.
fn name_of<'a>(command: &Command<'a>) -> &'a str
    ensures { result.now ≡ name_in command.now }
{
    match command {
        Command::Run(name, _) => name,
        Command::Check(name) => name,
        Command::Code(name) => name,
    }
}

/// Reads the file of this name, or as much of it as may be read.
fn front_of_file<F: Files>(alloc: Global, files: &mut F, name: &str) -> Result<Vec<u8>, Ending>
    ensures read { IfOk result (λ front. HasRead (F.state files.old) name.now front.items) }
    ensures ended { IfErr result (EndsReading (F.state files.old) (F.state files.new) name.now) }
    ensures contents { (F.state files.new).contents ≡ (F.state files.old).contents }
{
    match files.read_file(alloc, name) {
        Ok(front) => Ok(front),
        Err(FileFault::Failed) => Err(Ending::ReadFault),
        Err(FileFault::Missing) => Err(Ending::ReadFault),
        Err(FileFault::NoMemory) => Err(Ending::NoMemory),
    }
}

/// The reader of the small form: the program that the file is.
fn program_of(alloc: Global, file: &[u8]) -> Result<Program, Ending>
    ensures found { IfOk result (HasForm file.now) }
    ensures ended { IfErr result (EndsFrontEnd file.now) }
{
    match read(alloc, file) {
        Ok(program) => Ok(program),
        Err(ReadFault::NotForm) => Err(Ending::Refused(NOT_BUILT)),
        Err(ReadFault::NoMemory) => Err(Ending::NoMemory),
    }
}

/// Reads the program that a file is, and runs it for so many turns at most.
fn run_of_file(
    alloc: Global,
    file: &[u8],
    turns: u32,
    output: &mut Vec<u8>,
) -> Result<Ending, Ending>
    requires { output.old.items ≡ [] }
    ensures ran { IfOk result (λ ending. RunsForm file.now turns ending output.new.items) }
    ensures ended { IfErr result (EndsFrontEnd file.now) }
    ensures silent { IfErr result (λ cause. output.new.items ≡ []) }
{
    let program = program_of(alloc, file)?;
    let ending = run_of(alloc, &program, turns, output)?;
    Ok(ending)
}

/// Compiles a program and runs it. All memory is taken before the first turn.
fn run_of(
    alloc: Global,
    program: &Program,
    turns: u32,
    output: &mut Vec<u8>,
) -> Result<Ending, Ending>
    requires { output.old.items ≡ [] }
    ensures ran { IfOk result (λ ending. IsRunOf program.now turns ending output.new.items) }
    ensures ended { IfErr result (λ cause. IsSilent Ending.NoMemory cause output.new.items) }
{
    let code = compile(alloc, program)?;
    let mut thread = CodeThread::new(alloc)?;
    output.try_reserve(MOST_OUTPUT_BYTES)?;
    laws::runs_are_legal();
    laws::runs_are_unfinished();
    let finish = run(&code, u64::from(turns), &mut thread, output);
    Ok(ending_of(finish))
}

/// The ending of a run whose program ended so, or did not in its turns.
fn ending_of(finish: Option<Finish>) -> Ending
    ensures { result ≡ ending_of finish }
{
    match finish {
        Some(Finish::Exited(status)) => Ending::Exited(status),
        Some(Finish::Trapped(reason, line)) => Ending::Trapped(reason, line),
        None => Ending::Spent,
    }
}

/// Writes the output, and then the line of the cause.
fn write_outcome<O: Sink, E: Sink>(out: &mut O, err: &mut E, cause: Ending, output: &[u8]) -> Ending
    ensures { IsWritten cause output.now
        (streams (O.state out.old) (E.state err.old))
        (streams (O.state out.new) (E.state err.new)) result }
{
    match write_all_of(out, output) {
        Ok(()) => {}
        Err(_) => return Ending::WriteFault,
    }
    match write_line(err, &cause) {
        Ok(()) => cause,
        Err(_) => Ending::WriteFault,
    }
}
