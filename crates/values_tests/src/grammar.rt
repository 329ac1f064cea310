use pb_grammar::{Assembler, Command, parse};
use pb_words::Refusal;
use std::alloc::AllocError;
use std::test::Fail;

fn is_query(command: Command<'_>, target: &[u8]) -> bool {
    match command {
        Command::Query(found) => found == target,
        _ => false,
    }
}

fn is_assign(command: Command<'_>, target: &[u8], value: &[u8]) -> bool {
    match command {
        Command::Assign(found, given) => found == target && given == value,
        _ => false,
    }
}

fn is_echo(command: Command<'_>, text: &[u8]) -> bool {
    match command {
        Command::Echo(found) => found == text,
        _ => false,
    }
}

fn is_bad(command: Command<'_>, refusal: Refusal) -> bool {
    match command {
        Command::Bad(found) => found == refusal,
        _ => false,
    }
}

fn is_table(command: Command<'_>, target: &[u8], append: bool, base64: bool, body: &[u8]) -> bool {
    match command {
        Command::Table {
            target: found,
            append: behind,
            base64: letters,
            body: given,
        } => found == target && behind == append && letters == base64 && given == body,
        _ => false,
    }
}

/// Feeds the bytes, and adds what completes a command: its bytes and `.`, or `!` and the number of its refusal.
fn feed_all(assembler: &mut Assembler, bytes: &[u8], told: &mut Vec<u8>) -> Result<(), AllocError> {
    for b in bytes {
        if assembler.feed(*b) {
            match assembler.whole() {
                Ok(whole) => {
                    told.extend_from_slice(whole)?;
                    told.push(b'.')?;
                }
                Err(refusal) => {
                    told.push(b'!')?;
                    told.push(refusal.number())?;
                }
            }
        }
    }
    Ok(())
}

#[test]
fn each_form_is_read(rt: HostRuntime) {
    assert!(rt; is_query(parse(b"LUT1.OUT?\n"), b"LUT1.OUT"));
    assert!(rt; is_assign(parse(b"A.B.C=<~\n"), b"A.B.C", b"<~"));
    assert!(rt; is_echo(parse(b"*ECHO  a = b?\n"), b" a = b"));
    assert!(rt; is_table(parse(b"A.B<<B\nAA\n\n"), b"A.B", true, true, b"AA\n"));
    assert!(rt; is_bad(parse(b"LUT1.OUT?"), Refusal::MalformedCommand));
}

#[test]
fn lines_are_read_up_to_4096_bytes(rt: HostRuntime) {
    let mut bytes = [b'x'; 4098];
    bytes[..4].copy_from_slice(b"A.B=");
    bytes[4096] = b'\n';
    assert!(rt; is_assign(parse(&bytes[..4097]), b"A.B", &bytes[4..4096]));
    bytes[4096] = b'x';
    bytes[4097] = b'\n';
    assert!(rt; is_bad(parse(&bytes), Refusal::LineTooLong));
}

/// Lines, tables, a target that is none, a line of a body that can't be printed, an echo that opens a body, and an
/// unfinished table.
const STREAM: &[u8] =
    b"A.B?\nA.B<\n1 2\n3\n\n\nA<B\n\n\tA.B<\nA.B<<\n\t\n4\n\n*ECHO a<\n?\n\nA.B=<\nA.B<\n5";

/// What it completes. The refusals are 3 for the empty line and the target, 2 twice, and 3 for the echo.
const COMMANDS: &[u8] = b"A.B?\n.A.B<\n1 2\n3\n\n.!\x03!\x03!\x02!\x02!\x03A.B=<\n.";

#[test]
fn a_stream_cut_anywhere_gives_the_same_commands(rt: HostRuntime) -> Result<(), Fail> {
    let mut assembler = Assembler::new(rt.alloc())?;
    for i in 0..STREAM.len() {
        let mut told = Vec::new(rt.alloc());
        assembler.clear();
        feed_all(&mut assembler, &STREAM[..i], &mut told)?;
        feed_all(&mut assembler, &STREAM[i..], &mut told)?;
        assert!(rt; told.as_slice() == COMMANDS, "cut at {i}");
    }
    Ok(())
}
