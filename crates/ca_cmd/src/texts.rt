// Puts the text of a command, line by line.
ghost use Rattle.std.specs.Prelude.{◌≡◌, ◌≤◌, ℕ, List, length, OnOk, OnErr, IsErrOf};
ghost use Rattle.std.specs.Io.KnownBytes.{Appends};
ghost use Rattle.ca_io.specs.Outside.{Rose, AppendsPart};
ghost use Rattle.ca_io.specs.Ports.{LoadPort, put_port};
ghost use Rattle.ca_commands.specs.Words.{Command};
ghost use Rattle.ca_cmd.specs.Serving.{AskPort, Makes, Serves};

use crate::refusals::ServeNo;
use ca_io::{PutNo, Sink};
use ca_tree::Text;

// The length of the first line of a text, with its end.
fn line_length(text: &[u8]) -> usize
    ensures within { result ≤ length text.now }
    ensures some { 1 ≤ length text.now → 1 ≤ result }
{
    match text.iter().position(|byte| *byte == b'\n') {
        Some(end) => end + 1,
        None => text.len(),
    }
}

// Puts the lines of a text one at a time.
fn put_lines<O: Sink>(text: &[u8], out: &mut O) -> Result<(), PutNo>
    ensures whole { OnOk result (Appends (O.written out.old) (O.written out.new) text.now) }
    ensures passed { OnOk result (O.faults out.new ≡ O.faults out.old) }
    ensures part { OnErr result (AppendsPart (O.written out.old) (O.written out.new) text.now) }
    ensures failed { IsErrOf result PutNo.Failed → Rose (O.faults out.old) (O.faults out.new) }
{
    let mut rest = text;
    'lines: while !rest.is_empty() {
        let (line, behind) = rest.split_at(line_length(rest));
        match out.put(line) {
            Ok(()) => {}
            Err(PutNo::Failed) => return Err(PutNo::Failed),
            Err(PutNo::NoMemory) => return Err(PutNo::NoMemory),
        }
        rest = behind;
    }
    Ok(())
}

/// Puts the text that was made of a command, and answers the status 0.
pub fn put_made<O: Sink>(made: Result<Text, ServeNo>, out: &mut O) -> Result<u8, ServeNo>
    ensures { (said : List (List ℕ)) (files : LoadPort) (asks : AskPort) (c : Command) → Makes said files asks c made → Serves said files asks (put_port O.written O.faults out.old out.new) c result }
{
    let text = match made {
        Ok(text) => text,
        Err(no) => return Err(no),
    };
    match put_lines(text.as_slice(), out) {
        Ok(()) => Ok(0),
        Err(PutNo::Failed) => Err(ServeNo::Put),
        Err(PutNo::NoMemory) => Err(ServeNo::NoMemory),
    }
}
