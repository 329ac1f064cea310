ghost use Rattle.std.specs.Prelude.{◌≡◌, ◌≤◌, ◌++◌, ℕ, List, IfOk, IfErr, IsErrOf};
ghost use Rattle.pb_ports.specs.Ports.{Rose};
ghost use Rattle.pb_session.specs.Options.{IsUnfinished, ReadsLine};
ghost use Rattle.pb_session.specs.Reading.{IsLineSoFar, HasNoLine};

use crate::endings::DataEnded;
use pb_ports::{Read, Source};
use pb_words::{OutOfMemory, Text};
use std::alloc::Global;

/// So many bytes an options line has at most, its newline not counted.
const LONGEST: usize = 4096;

/// The byte that ends an options line.
const NEWLINE: u8 = b'\n';

/// Reads the options line of a data session: the bytes before the first newline, or the first 4,097 where these have none.
pub(crate) fn read_line<S: Source>(alloc: Global, source: &mut S) -> Result<Text, DataEnded>
    ensures line { IfOk result (λ line. ReadsLine (S.left source.old) (S.left source.new) line) }
    ensures none { IfErr result (λ ended. HasNoLine ended (S.left source.old) (S.left source.new)) }
    ensures cause { IsErrOf result DataEnded.ReadFault → Rose (S.faults source.old) (S.faults source.new) }
    ensures count { S.faults source.old ≤ S.faults source.new }
{
    let mut line = Text::new(alloc);
    let mut piece = [0u8; 4096];
    loop {
        match source.read(&mut piece) {
            Read::Some(n) => match add_piece(&mut line, &piece[..n]) {
                Ok(true) => return Ok(line),
                Ok(false) => {}
                Err(_) => return Err(DataEnded::NoMemory),
            },
            Read::End => return Err(DataEnded::Closed),
            Read::Failed => return Err(DataEnded::ReadFault),
        }
    }
}

/// Adds what a piece has of the line, and says whether the line is whole.
fn add_piece(line: &mut Text, piece: &[u8]) -> Result<bool, OutOfMemory>
    requires { IsUnfinished line.old }
    ensures { IfOk result (λ whole. IsLineSoFar whole (line.old ++ piece.now) line.new) }
{
    for byte in piece {
        if *byte == NEWLINE {
            return Ok(true);
        }
        match line.append(&[*byte]) {
            Ok(()) => {}
            Err(fault) => return Err(fault),
        }
        if line.bytes().len() > LONGEST {
            return Ok(true);
        }
    }
    Ok(false)
}
