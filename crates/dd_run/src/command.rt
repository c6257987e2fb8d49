ghost use Rattle.std.specs.Prelude.{◌≡◌, MatchResult, None, Some, codes, map};
ghost use Rattle.std.specs.Str.{bytes_eq};
ghost use Rattle.dd_run.specs.Words.{command_of};

/// What the program is asked to do.
#[derive(Clone, Copy, Debug, PartialEq, Eq)]
pub enum Command {
    /// Answer the script on standard input.
    Run,
}

/// The words ask for nothing that the program does.
#[derive(Clone, Copy, Debug, PartialEq, Eq)]
pub struct Usage;

/// Reads the words of a command line, the program's name left out. It takes no memory.
pub fn read_words(words: &[&str]) -> Result<Command, Usage>
    ensures { MatchResult result
        (λ command. command_of (map (λ word. word.now) words.now) ≡ Some command)
        (λ _. command_of (map (λ word. word.now) words.now) ≡ None) }
{
    match words {
        [word] if is_run(word) => Ok(Command::Run),
        _ => Err(Usage),
    }
}

fn is_run(word: &str) -> bool
    ensures { result ≡ bytes_eq word.now (codes "run") }
{
    word == "run"
}
