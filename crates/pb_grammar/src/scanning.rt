ghost use Rattle.std.specs.Prelude.{◌≡◌, ◌≢◌, ◌+◌, ◌<◌, ◌++◌, ◌∷◌, [], ℕ, List, nat_lt, if◌then◌else◌};
ghost use Rattle.pb_grammar.specs.Grammar.{is_printable, first_of};

use pb_words::Refusal;

/// The most bytes of a line before its newline.
pub(crate) const LONGEST: usize = 4096;

/// The most bytes of a body, newlines counted.
pub(crate) const LONGEST_BODY: usize = 262_144;

/// A body as far as its bytes were seen.
#[derive(Clone, Copy)]
pub struct Scan {
    /// The bytes that further lines may have, while there is no fault.
    pub(crate) room: usize,
    /// The bytes of the current line, counted up to one more than a line may have.
    pub(crate) line: usize,
    /// Whether all bytes of the current line can be printed.
    pub(crate) printable: bool,
    /// Why the body's first bad line is refused.
    pub(crate) fault: Option<Refusal>,
}

impl Scan {
    ghost use Rattle.pb_grammar.specs.Feeding.{Scans, own_fault};

    /// No byte seen.
    pub(crate) fn new() -> Scan
        ensures { Scans result [] }
    {
        Scan {
            room: LONGEST_BODY,
            line: 0,
            printable: true,
            fault: None,
        }
    }

    /// With one more byte, which doesn't end an empty line.
    pub(crate) fn after(self, byte: u8) -> Scan
        requires { byte ≡ 10 → 0 < self.line }
        ensures { (body : List ℕ) → Scans self body → Scans result (body ++ byte ∷ []) }
    {
        if byte == b'\n' {
            self.at_newline()
        } else {
            self.within_line(byte)
        }
    }

    /// With one more byte of the current line.
    fn within_line(self, byte: u8) -> Scan
        requires { byte ≢ 10 }
        ensures { (body : List ℕ) → Scans self body → Scans result (body ++ byte ∷ []) }
    {
        Scan {
            room: self.room,
            line: one_more(self.line),
            printable: self.printable && can_be_printed(byte),
            fault: self.fault,
        }
    }

    /// With the newline of the current line, which isn't empty.
    fn at_newline(self) -> Scan
        requires { 0 < self.line }
        ensures { (body : List ℕ) → Scans self body → Scans result (body ++ 10 ∷ []) }
    {
        Scan {
            room: self.room.saturating_sub(self.line).saturating_sub(1),
            line: 0,
            printable: true,
            fault: self.fault_at_newline(),
        }
    }

    /// Why the body is refused, where the current line ends here.
    fn fault_at_newline(self) -> Option<Refusal>
        ensures { result ≡ first_of self.fault (own_fault self) }
    {
        if self.fault.is_some() {
            self.fault
        } else if self.line > LONGEST {
            Some(Refusal::LineTooLong)
        } else if !self.printable {
            Some(Refusal::NotPrintable)
        } else if self.line >= self.room {
            Some(Refusal::TableTooLong)
        } else {
            None
        }
    }
}

/// One more, or one byte more than a line may have.
fn one_more(line: usize) -> usize
    ensures { result ≡ (if nat_lt 4096 line then line else line + 1) }
{
    if line > LONGEST { line } else { line + 1 }
}

/// Whether the byte is a space or can be seen.
pub(crate) fn can_be_printed(byte: u8) -> bool
    ensures { result ≡ is_printable byte }
{
    b' ' <= byte && byte <= b'~'
}
