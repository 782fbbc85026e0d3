//! The lines of connections and of boards.

ghost use Rattle.std.specs.Prelude.{◌≡◌, ◌++◌, IfOk, OnOk, string_bytes};
ghost use Rattle.serve_command.specs.Text as spec;

use hub_session::{Served, SessionEnd};
use ipb_base::NoMemory;
use std::alloc::Global;
use transcript::{BoardLine, push_boards};

/// How a connection ended.
fn end_text(end: SessionEnd) -> &'static str
    ensures { result.now ≡ spec.end_text end }
{
    match end {
        SessionEnd::Closed => "closed",
        SessionEnd::ReadFault => "read fault",
        SessionEnd::WriteFault => "write fault",
        SessionEnd::BadFrame => "bad frame",
        SessionEnd::CutFrame => "cut frame",
        SessionEnd::NoMemory => "no memory",
    }
}

/// The line of a connection, whose number counts from 1.
fn connection_text(alloc: Global, connection: u64, served: &Served) -> Result<String, NoMemory>
    ensures { IfOk result (λ text. string_bytes text ≡ spec.connection_text connection served.now) }
{
    let frames = served.frames;
    let end = end_text(served.end);
    Ok(format!(in alloc; "connection {connection} frames {frames} {end}\n")?)
}

/// Puts the line of a connection behind a text.
fn push_connection(
    alloc: Global,
    text: &mut String,
    connection: u64,
    served: &Served,
) -> Result<(), NoMemory>
    ensures { OnOk result
        (string_bytes text.new ≡ string_bytes text.old ++ spec.connection_text connection served.now) }
{
    let line = connection_text(alloc, connection, served)?;
    text.push_str(line.as_str())?;
    Ok(())
}

/// The line of each connection.
fn push_connections(
    alloc: Global,
    text: &mut String,
    connections: &[Served],
) -> Result<(), NoMemory>
    ensures { OnOk result (string_bytes text.new ≡ string_bytes text.old ++ spec.connections_text 1 connections.now) }
{
    for (i, served) in connections.iter().enumerate() {
        push_connection(alloc, text, i as u64 + 1, served)?;
    }
    Ok(())
}

/// The text of a server (profile): a line for each connection, in the order in which they were accepted, with the
/// frames that were answered and how it ended, and then the lines of the boards.
pub fn serve_text(
    alloc: Global,
    connections: &[Served],
    boards: &[BoardLine],
) -> Result<Vec<u8>, NoMemory>
    ensures { IfOk result (λ text. text.items ≡ spec.serve_text connections.now boards.now) }
{
    let mut text = String::new(alloc);
    push_connections(alloc, &mut text, connections)?;
    push_boards(alloc, &mut text, boards)?;
    Ok(text.into_bytes())
}

/// Whether every connection ended between two frames, with no fault: the status of a server is 0 then, and else 1
/// (profile).
pub fn all_closed(connections: &[Served]) -> bool
    ensures { result ≡ spec.all_closed connections.now }
{
    for served in connections {
        if served.end != SessionEnd::Closed {
            return false;
        }
    }
    true
}
