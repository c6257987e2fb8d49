// Prints a history piece by piece.
ghost use Rattle.std.specs.Prelude.{◌≡◌, ◌<◌, ◌^◌, ◌∷◌, [], IfOk, IsOkUnless, length};
ghost use Rattle.dd_run.specs.Writes.{Writes};
ghost use Rattle.dd_run.specs.Printed.{answers_text, printed_names, session_line, session_text};

use crate::answer_text::entry_text;
use dd_engine::Entry;
use dd_names::Name;
use edge_io::{Sink, write_all};
use std::alloc::{AllocError, Global};

/// Why not all was printed.
#[derive(Clone, Copy, Debug, PartialEq, Eq)]
pub enum PrintFault {
    /// The sink has failed.
    WriteFault,
    /// There was no memory for a text.
    Memory,
}

/// Prints for each session, by its name, its line, then its answers in order. After a fault the first of the text is written.
pub fn print_history<K: Sink>(
    alloc: Global,
    names: &[Name],
    history: &[Entry],
    sink: &mut K,
) -> Result<(), PrintFault>
    requires { length names.now < 2 ^ 32 }
    ensures { Writes (K.held sink.old) (K.held sink.new) (K.faults sink.old) (K.faults sink.new) (printed_names names.now history.now) result }
{
    let mut session = 0u32;
    'sessions: for name in names {
        if let Err(fault) = print_session(alloc, name.as_str(), session, history, sink) {
            return Err(fault);
        }
        session += 1;
    }
    Ok(())
}

fn print_session<K: Sink>(
    alloc: Global,
    name: &str,
    session: u32,
    history: &[Entry],
    sink: &mut K,
) -> Result<(), PrintFault>
    ensures { Writes (K.held sink.old) (K.held sink.new) (K.faults sink.old) (K.faults sink.new) (session_text name.now session history.now) result }
{
    if let Err(fault) = print_line(alloc, name, sink) {
        return Err(fault);
    }
    print_answers(alloc, session, history, sink)
}

fn print_answers<K: Sink>(
    alloc: Global,
    session: u32,
    history: &[Entry],
    sink: &mut K,
) -> Result<(), PrintFault>
    ensures { Writes (K.held sink.old) (K.held sink.new) (K.faults sink.old) (K.faults sink.new) (answers_text history.now session) result }
{
    'entries: for entry in history {
        if let Err(fault) = print_entry(alloc, session, entry, sink) {
            return Err(fault);
        }
    }
    Ok(())
}

// Prints the answer of an entry of this session, and nothing for another.
fn print_entry<K: Sink>(
    alloc: Global,
    session: u32,
    entry: &Entry,
    sink: &mut K,
) -> Result<(), PrintFault>
    ensures { Writes (K.held sink.old) (K.held sink.new) (K.faults sink.old) (K.faults sink.new) (answers_text (entry.now ∷ []) session) result }
{
    if entry.session != session {
        return Ok(());
    }
    let Ok(text) = entry_text(alloc, entry) else {
        return Err(PrintFault::Memory);
    };
    print_text(sink, &text)
}

fn print_line<K: Sink>(alloc: Global, name: &str, sink: &mut K) -> Result<(), PrintFault>
    ensures { Writes (K.held sink.old) (K.held sink.new) (K.faults sink.old) (K.faults sink.new) (session_line name.now) result }
{
    let Ok(line) = session_line(alloc, name) else {
        return Err(PrintFault::Memory);
    };
    print_text(sink, &line)
}

fn session_line(alloc: Global, name: &str) -> Result<Vec<u8>, AllocError>
    ensures { IfOk result (λ text. text.items ≡ session_line name.now) }
{
    let mut out = Vec::new(alloc);
    out.extend_from_slice(b"-- session ")?;
    out.extend_from_slice(name.as_bytes())?;
    out.extend_from_slice(b"\n")?;
    Ok(out)
}

fn print_text<K: Sink>(sink: &mut K, text: &[u8]) -> Result<(), PrintFault>
    ensures writes { Writes (K.held sink.old) (K.held sink.new) (K.faults sink.old) (K.faults sink.new) text.now result }
    ensures only { IsOkUnless result PrintFault.WriteFault }
{
    match write_all(sink, text) {
        Ok(()) => Ok(()),
        Err(_) => Err(PrintFault::WriteFault),
    }
}
