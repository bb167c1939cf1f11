//! The words of a call.

ghost use Rattle.std.specs.Prelude.{[], ◌∷◌, map, IsTrue, ◌↔◌};
ghost use Rattle.filc_top.specs.Commands.{IsFileName, IsTurnsOf, IsFileFor, IsCommandOf};

use form_reader::number_of;

/// The turns of a run whose words name none.
pub const DEFAULT_TURNS: u32 = 100_000_000;

/// The most turns of a run.
pub const MOST_TURNS: u32 = 1_000_000_000;

/// What the words ask for.
#[derive(Clone, Copy, Debug)]
pub enum Command<'a> {
    /// The file of this name is run, for so many turns at most.
    Run(&'a str, u32),
    /// The file of this name is checked.
    Check(&'a str),
    /// The code of the file of this name is listed.
    Code(&'a str),
}

/// The command that the words are, where they are one.
pub fn command_of<'a>(words: &'a [&'a str]) -> Option<Command<'a>>
    ensures { IsCommandOf (map (λ word. word.now) words.now) result }
{
    if words.len() == 2 {
        return of_two(words[0], words[1]);
    }
    if words.len() == 4 {
        return of_four(words[0], words[1], words[2], words[3]);
    }
    None
}

/// The command that two words are, where they are one.
fn of_two<'a>(command: &str, name: &'a str) -> Option<Command<'a>>
    ensures { IsCommandOf (command.now ∷ name.now ∷ []) result }
{
    if !is_file_name(name) {
        return None;
    }
    if command == "run" {
        return Some(Command::Run(name, DEFAULT_TURNS));
    }
    if command == "check" {
        return Some(Command::Check(name));
    }
    if command == "code" {
        return Some(Command::Code(name));
    }
    None
}

/// The command that four words are, where they are one.
fn of_four<'a>(run: &str, first: &'a str, second: &'a str, third: &'a str) -> Option<Command<'a>>
    ensures { IsCommandOf (run.now ∷ first.now ∷ second.now ∷ third.now ∷ []) result }
{
    if run != "run" {
        return None;
    }
    if first == "--turns" {
        return with_turns(third, second);
    }
    if second == "--turns" {
        return with_turns(first, third);
    }
    None
}

/// The command of a name and a number.
fn with_turns<'a>(name: &'a str, word: &str) -> Option<Command<'a>>
    ensures { IsFileFor name.now word.now result }
{
    if !is_file_name(name) {
        return None;
    }
    let turns = turns_of(word)?;
    Some(Command::Run(name, turns))
}

/// Whether a word may be the name of a file.
fn is_file_name(word: &str) -> bool
    ensures { IsTrue result ↔ IsFileName word.now }
{
    match word.as_bytes() {
        [] => false,
        [first, ..] => *first != b'-',
    }
}

/// The number of turns that a word spells.
fn turns_of(word: &str) -> Option<u32>
    ensures { IsTurnsOf word.now result }
{
    let turns = number_of(word.as_bytes())?;
    if turns == 0 {
        return None;
    }
    if turns > MOST_TURNS {
        return None;
    }
    Some(turns)
}
