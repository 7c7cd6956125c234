// The top call: words, and the command that they are.
ghost use Rattle.std.specs.Prelude.{◌≡◌, ◌≢◌, ◌⊎◌, List, ℕ, map, string_bytes};
ghost use Rattle.ca_commands.specs.Options.{command};
ghost use Rattle.ca_commands.specs.Words.{Means};
ghost use Rattle.ca_cmd.specs.Commands.{Cause, Stands, status};
ghost use Rattle.ca_io.specs.Ports.{put_port, load_port, HasFailed};
ghost use Rattle.ca_cmd.specs.Serving.{ask_port, Holds, Answers, IsCut, NoneFailed, Serves};

use crate::refusals::{ServeNo, close, out_of_memory, refuse};
use crate::run::serve_run;
use crate::sites::sites_text;
use crate::texts::put_made;
use crate::traced::traced_text;
use ca_commands::{CommandWords, WordsNo, command_words};
use ca_io::{Files, Sink};
use std::alloc::Global;

// Does what a command is asked to do.
fn serve<F: Files, O: Sink>(
    alloc: Global,
    words: &CommandWords,
    files: &mut F,
    out: &mut O,
) -> Result<u8, ServeNo>
    // for all words that say so
    requires { (said : List (List ℕ)) × Means said (command words.now) }
    ensures served { (said : List (List ℕ)) → Means said (command words.now) → Serves said
        (load_port F.holds F.faults files.old files.new)
        (ask_port F.asked files.old files.new)
        (put_port O.written O.faults out.old out.new) (command words.now) result }
    ensures kept { F.holds files.new ≡ F.holds files.old }
{
    match words {
        CommandWords::Run(words) => serve_run(alloc, words, files, out),
        CommandWords::Sites(words) => put_made(sites_text(alloc, words, files), out),
        CommandWords::Check(_) | CommandWords::Project(_) | CommandWords::Lift(_) => {
            put_made(traced_text(alloc, words, files), out)
        }
    }
}

/// Does what the words say, and answers the status that the program ends with.
///
/// - `run FILE` runs the source in FILE alone on one thread, and puts the report of its run to `out`, a line a put. The
///   source is hardened by its plan, which `--limit N`, `--depth N` and `--only LIST` change, or it is run as it is with
///   `--plain`. `--events N`, `--patience N`, `--schedule LIST` and `--seed N` say how the runner goes.
/// - `check FILE TRACE` tells whether the trace in TRACE is a run of the source in FILE, which is hardened as for `run`, and
///   with how many entries and which ending.
/// - `project FILE TRACE` puts the text of the projection of such a trace: without its abandoned attempts and its saves it is a
///   run of the source as it is.
/// - `lift FILE TRACE` puts the text of the lifted list of a run of the source as it is: with each save of the plan before the
///   next entry of its thread it is a run of the hardened source.
/// - `sites FILE` puts the table of the places at which the source in FILE may fail, with `--depth N` and `--only LIST`.
///
/// The status is 0 where the run finished, or another command did its work; 1 where a fault ended the run; 2 where the words
/// are others, or a number of `--only` is no site's; 3 where the source is longer than 1,048,576 bytes, or has a fault as a
/// text of tokens, as a program or of types; 4 where the run is in deadlock; 5 where it has reached a limit of the runner; 6
/// where a file could not be loaded; 7 where a put failed; 8 where an allocation was refused; 9 where the trace is longer
/// than 268,435,456 bytes, has a line without a reading, an entry that is no step, or a fault entry that is lifted. After 2, 3, 6, 8 and 9 a text goes to
/// `err`.
pub fn command_alone<F: Files, O: Sink, E: Sink>(
    alloc: Global,
    words: &[String],
    files: &mut F,
    out: &mut O,
    err: &mut E,
) -> u8
    // a cause is there, this is its status, its names were asked for, its texts were put whole, and hardening has added nothing
    ensures answered { result ≢ 7 → result ≢ 8 → (cause : Cause) × Answers
        (map string_bytes words.now)
        (load_port F.holds F.faults files.old files.new)
        (ask_port F.asked files.old files.new)
        (put_port O.written O.faults out.old out.new)
        (put_port E.written E.faults err.old err.new) cause result }
    // a cause is there, and fronts of its texts were put; or memory ran out before one was known
    ensures cut { (result ≡ 7) ⊎ (result ≡ 8) → IsCut (map string_bytes words.now)
        (load_port F.holds F.faults files.old files.new)
        (ask_port F.asked files.old files.new)
        (put_port O.written O.faults out.old out.new)
        (put_port E.written E.faults err.old err.new) }
    ensures put_failed { result ≡ 7 → HasFailed (put_port O.written O.faults out.old out.new)
        ⊎ HasFailed (put_port E.written E.faults err.old err.new) }
    // where contents are told and no count of faults rises, each cause that is there gives its status
    ensures decided { (cause : Cause) →
        Stands (map string_bytes words.now)
        (Holds (load_port F.holds F.faults files.old files.new)) cause →
        NoneFailed (load_port F.holds F.faults files.old files.new)
        (put_port O.written O.faults out.old out.new)
        (put_port E.written E.faults err.old err.new) →
        (result ≡ status cause) ⊎ (result ≡ 8) }
    ensures kept { F.holds files.new ≡ F.holds files.old }
{
    let words = match command_words(alloc, words) {
        Ok(words) => words,
        Err(WordsNo::Misworded) => return close(err, 2, b"conair: words not understood\n"),
        Err(WordsNo::NoMemory) => return out_of_memory(err),
    };
    match serve(alloc, &words, files, out) {
        Ok(status) => status,
        Err(ServeNo::Refused(refusal)) => refuse(alloc, &words, refusal, err),
        Err(ServeNo::Put) => 7,
        Err(ServeNo::NoMemory) => out_of_memory(err),
    }
}

#[cfg(test)]
mod tests;
