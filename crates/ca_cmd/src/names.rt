// What a command names.
ghost use Rattle.std.specs.Prelude.{◌≡◌, get_or, []};
ghost use Rattle.ca_commands.specs.Options.{command, plan_options};
ghost use Rattle.ca_cmd.specs.Commands.{source_of, traces_of, is_plain, said_of};

use ca_commands::{CommandWords, PlanWords};

/// The file of its source.
pub fn source_name(words: &CommandWords) -> &str
    ensures { result.now ≡ source_of (command words.now) }
{
    match words {
        CommandWords::Run(words) => words.name.as_str(),
        CommandWords::Check(words) => words.name.as_str(),
        CommandWords::Sites(words) => words.name.as_str(),
        CommandWords::Project(words) => words.name.as_str(),
        CommandWords::Lift(words) => words.name.as_str(),
    }
}

/// The file of its trace; none is the empty word.
pub fn trace_name(words: &CommandWords) -> &str
    ensures { result.now ≡ get_or (traces_of (command words.now)) 0 [] }
{
    match words {
        CommandWords::Check(words) => words.trace.as_str(),
        CommandWords::Project(words) => words.trace.as_str(),
        CommandWords::Lift(words) => words.trace.as_str(),
        CommandWords::Run(_) | CommandWords::Sites(_) => "",
    }
}

/// Whether its source is taken as it is.
pub fn is_plain(words: &CommandWords) -> bool
    ensures { result ≡ is_plain (command words.now) }
{
    match words {
        CommandWords::Run(words) => words.plain,
        CommandWords::Check(words) => words.plain,
        CommandWords::Sites(_) | CommandWords::Project(_) | CommandWords::Lift(_) => false,
    }
}

/// How its source is hardened.
pub fn plan_words(words: &CommandWords) -> &PlanWords
    ensures { plan_options result.now ≡ said_of (command words.now) }
{
    match words {
        CommandWords::Run(words) => &words.plan,
        CommandWords::Check(words) => &words.plan,
        CommandWords::Sites(words) => &words.plan,
        CommandWords::Project(words) => &words.plan,
        CommandWords::Lift(words) => &words.plan,
    }
}
