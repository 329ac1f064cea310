ghost use Rattle.std.specs.Prelude.{◌≡◌, ◌==◌, ℕ, ◌<◌, List, [], ◌∷◌, ◌++◌, false, true, length, take, drop, position, codes, IfSome, IsTrue, ◌↔◌};
ghost use Rattle.std.specs.Option.{option_copied};
ghost use Rattle.pb_grammar.specs.Grammar.{Said, Query, Assign, Table, Echo, Bad, IsCommand, IsText, is_deciding, echo_in, table_in, opened, with_body, opening_of, decided_at, plainly_said, said_in, command_of, line_text, said_of};
ghost use Rattle.pb_words.specs.declared.refusals.Refusal.TheVariants as refusals;

use crate::queries::queried_line;
use crate::scanning::LONGEST;
use crate::tables::{OpeningLine, is_printable, opening_in, scan_of};
use crate::targets::is_target;
use pb_words::Refusal;

/// What a client asks.
#[derive(Clone, Copy)]
pub enum Command<'a> {
    /// The value of this target.
    Query(&'a [u8]),
    /// This target is to have this value.
    Assign(&'a [u8], &'a [u8]),
    /// The table of this target is to have the words of this body, alone or behind those that it has.
    Table {
        target: &'a [u8],
        append: bool,
        base64: bool,
        body: &'a [u8],
    },
    /// This text again.
    Echo(&'a [u8]),
    /// No command, for this reason.
    Bad(Refusal),
}

/// What these bytes of one command ask, its last newline included. Bytes that aren't one whole command are malformed.
pub fn parse(bytes: &[u8]) -> Command<'_>
    ensures { said_of result ≡ command_of bytes.now }
{
    match queried_line(bytes) {
        Some(target) => Command::Query(target),
        None => any_command(bytes),
    }
}

/// The same, by the form of the bytes.
#[tactic(auto, unfolding(crate::specs::Grammar::command_of))]
fn any_command(bytes: &[u8]) -> Command<'_>
    ensures { said_of result ≡ command_of bytes.now }
{
    match line_in(bytes) {
        Some(text) => command_in(text),
        None => table_in(bytes),
    }
}

/// What the bytes of a table write ask: a line that opens a body, the body, and an empty line.
#[tactic(auto, unfolding(crate::specs::Grammar::table_in))]
fn table_in(bytes: &[u8]) -> Command<'_>
    ensures { said_of result ≡ table_in bytes.now }
{
    match newline_place(bytes) {
        Some(place) => opened(&bytes[..place], &bytes[place + 1..]),
        None => Command::Bad(Refusal::MalformedCommand),
    }
}

/// The place of the first newline.
fn newline_place(bytes: &[u8]) -> Option<usize>
    ensures place { result ≡ position (λ b. b == 10) bytes.now }
    ensures within { IfSome result (λ place. place < length bytes.now) }
{
    bytes.iter().position(|b| *b == b'\n')
}

/// What a first line says with what stands behind its newline.
fn opened<'a>(first: &'a [u8], behind: &'a [u8]) -> Command<'a>
    ensures { said_of result ≡ opened first.now behind.now }
{
    match opening_in(first) {
        Some(opening) => with_body(opening, behind),
        None => Command::Bad(Refusal::MalformedCommand),
    }
}

/// What an opening says with what stands behind its line.
fn with_body<'a>(opening: OpeningLine<'a>, behind: &'a [u8]) -> Command<'a>
    ensures { said_of result ≡ with_body (opening_of opening.entry) behind.now }
{
    let Some(scan) = scan_of(behind) else {
        return Command::Bad(Refusal::MalformedCommand);
    };
    if !is_target(opening.target) {
        return Command::Bad(Refusal::MalformedCommand);
    }
    match scan.fault {
        Some(refusal) => Command::Bad(refusal),
        None => Command::Table {
            target: opening.target,
            append: opening.append,
            base64: opening.base64,
            body: without_last(behind),
        },
    }
}

/// All bytes but the last.
fn without_last(bytes: &[u8]) -> &[u8]
    ensures { (front : List ℕ) → bytes.now ≡ front ++ 10 ∷ [] → result.now ≡ front }
{
    bytes.strip_suffix(b"\n".as_slice()).unwrap_or(bytes)
}

/// The text before the newline, where that is the last byte and the only newline.
fn line_in(bytes: &[u8]) -> Option<&[u8]>
    ensures { option_copied result ≡ line_text bytes.now }
{
    let Some(text) = bytes.strip_suffix(b"\n".as_slice()) else {
        return None;
    };
    if is_text(text) { Some(text) } else { None }
}

/// Whether no byte is a newline.
fn is_text(text: &[u8]) -> bool
    ensures { IsTrue result ↔ IsText text.now }
{
    text.iter().all(|b| *b != b'\n')
}

/// What the text of a line asks.
#[tactic(auto, unfolding(crate::specs::Grammar::said_in))]
pub(crate) fn command_in(text: &[u8]) -> Command<'_>
    ensures { said_of result ≡ said_in text.now }
{
    if text.len() > LONGEST {
        return Command::Bad(Refusal::LineTooLong);
    }
    if !is_printable(text) {
        return Command::Bad(Refusal::NotPrintable);
    }
    match echo_in(text) {
        Some(words) => Command::Echo(words),
        None => plain_command(text),
    }
}

/// What the echo query asks to be said again.
fn echo_in(text: &[u8]) -> Option<&[u8]>
    ensures { option_copied result ≡ echo_in text.now }
{
    text.strip_prefix(b"*ECHO ".as_slice())?
        .strip_suffix(b"?".as_slice())
}

/// What a text asks that is no echo query.
fn plain_command(text: &[u8]) -> Command<'_>
    ensures { said_of result ≡ plainly_said text.now }
{
    match deciding_place(text) {
        Some(place) => decided(&text[..place], &text[place..]),
        None => Command::Bad(Refusal::MalformedCommand),
    }
}

/// The place of the first byte that decides what the line is.
pub(crate) fn deciding_place(text: &[u8]) -> Option<usize>
    ensures place { result ≡ position is_deciding text.now }
    ensures within { IfSome result (λ place. place < length text.now) }
{
    text.iter()
        .position(|b| *b == b'?' || *b == b'=' || *b == b'<')
}

/// What a target says with what stands behind it.
fn decided<'a>(target: &'a [u8], behind: &'a [u8]) -> Command<'a>
    ensures { said_of result ≡ decided_at target.now behind.now }
{
    if !is_target(target) {
        return Command::Bad(Refusal::MalformedCommand);
    }
    match behind {
        [b'=', value @ ..] => Command::Assign(target, value),
        [b'?'] => Command::Query(target),
        _ => Command::Bad(Refusal::MalformedCommand),
    }
}

/// The bytes of a command say one thing, and it can be computed.
pub fn commands_have_one_meaning()
    ensures { (bytes : List ℕ) (said : Said) → IsCommand bytes said ↔ (command_of bytes ≡ said) }
{}

/// Commands and what they say, worked by hand.
pub fn commands_by_example()
    ensures function { command_of (codes "LUT1.FUNC=0x0000FFFF\n") ≡ Assign (codes "LUT1.FUNC") (codes "0x0000FFFF") }
    ensures spaces { command_of (codes "LUT1.FUNC= ~A & B\n") ≡ Assign (codes "LUT1.FUNC") (codes " ~A & B") }
    ensures output { command_of (codes "LUT8.OUT?\n") ≡ Query (codes "LUT8.OUT") }
    ensures attribute { command_of (codes "LUT1.INPA.DELAY=3\n") ≡ Assign (codes "LUT1.INPA.DELAY") (codes "3") }
    ensures fields { command_of (codes "LUT1.*?\n") ≡ Query (codes "LUT1.*") }
    ensures attributes { command_of (codes "LUT1.INPA.*?\n") ≡ Query (codes "LUT1.INPA.*") }
    ensures star { command_of (codes "*ENUMS.LUT1.INPA?\n") ≡ Query (codes "*ENUMS.LUT1.INPA") }
    ensures echo { command_of (codes "*ECHO a = b? \"c\" ?\n") ≡ Echo (codes "a = b? \"c\" ") }
    ensures no_echo { command_of (codes "*ECHO?\n") ≡ Query (codes "*ECHO") }
    ensures unknown { command_of (codes "lut1.OUT?\n") ≡ Query (codes "lut1.OUT") }
    ensures empty { command_of (codes "\n") ≡ Bad refusals.MalformedCommand }
    ensures no_newline { command_of (codes "LUT8.OUT?") ≡ Bad refusals.MalformedCommand }
    ensures two_lines { command_of (codes "LUT1.FUNC=A\nLUT1.FUNC=B\n") ≡ Bad refusals.MalformedCommand }
    ensures not_printable { command_of (codes "LUT1.OUT?\t\n") ≡ Bad refusals.NotPrintable }
    ensures no_field { command_of (codes "LUT1?\n") ≡ Bad refusals.MalformedCommand }
    ensures many_parts { command_of (codes "*ENUMS.A.B.C.D?\n") ≡ Bad refusals.MalformedCommand }
    ensures behind { command_of (codes "LUT1.OUT?x\n") ≡ Bad refusals.MalformedCommand }
    ensures table { command_of (codes "SEQ1.TABLE<\n") ≡ Bad refusals.MalformedCommand }
    ensures question { command_of (codes "LUT1.FUNC=x?\n") ≡ Assign (codes "LUT1.FUNC") (codes "x?") }
    ensures numbers { command_of (codes "SEQ1.TABLE<\n1 2\n\n") ≡ Table (codes "SEQ1.TABLE") false false (codes "1 2\n") }
    ensures letters { command_of (codes "SEQ1.TABLE<<B\nAQAA\nAA==\n\n") ≡ Table (codes "SEQ1.TABLE") true true (codes "AQAA\nAA==\n") }
    ensures no_lines { command_of (codes "SEQ1.TABLE<B\n\n") ≡ Table (codes "SEQ1.TABLE") false true [] }
    ensures no_target { command_of (codes "*ECHO a<\n\n") ≡ Bad refusals.MalformedCommand }
    ensures target_first { command_of (codes "SEQ1<\n\t\n\n") ≡ Bad refusals.MalformedCommand }
    ensures bad_line { command_of (codes "SEQ1.TABLE<\n1\n\t\n\n") ≡ Bad refusals.NotPrintable }
    ensures behind_body { command_of (codes "SEQ1.TABLE<\n\n\n") ≡ Bad refusals.MalformedCommand }
    ensures second_sign { command_of (codes "LUT1.FUNC=A=B\n") ≡ Assign (codes "LUT1.FUNC") (codes "A=B") }
    ensures no_value { command_of (codes "LUT1.FUNC=\n") ≡ Assign (codes "LUT1.FUNC") [] }
{}
