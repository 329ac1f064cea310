ghost use Rattle.std.specs.Prelude.{◌≡◌};
ghost use Rattle.pb_encode.specs.Choosing.{options_of};

use crate::choosing::{can_be_printed, chosen_by};
use pb_words::Refusal;

/// In which form records are handed out.
#[derive(Clone, Copy, Debug, PartialEq, Eq)]
pub enum Form {
    /// A line a record, with numbers in decimal.
    Ascii,
    /// The bytes in base64, in lines.
    Base64,
    /// The bytes behind their number.
    Framed,
    /// The bytes alone.
    Unframed,
}

/// What the client of a data session asked for.
#[derive(Clone, Copy, Debug, PartialEq, Eq)]
pub struct Options {
    pub form: Form,
    /// Whether positions are shown in their units.
    pub scaled: bool,
    /// Whether a header stands before the records.
    pub header: bool,
    /// Whether the session and the end of an acquisition are told.
    pub status: bool,
    /// Whether one acquisition is all.
    pub one_shot: bool,
}

/// The most bytes of an options line.
const LONGEST: usize = 4096;

impl Options {
    /// Reads an options line: words with spaces between them, of which a later one undoes an earlier one. It is
    /// refused where it is too long or isn't printable, for an unknown word, and where SCALED is chosen
    /// with another form than ASCII; the first of these is the answer.
    #[tactic(auto, unfolding(crate::specs::Choosing::options_of))]
    pub fn parse(line: &[u8]) -> Result<Options, Refusal>
        ensures { result ≡ options_of line.now }
    {
        if line.len() > LONGEST {
            return Err(Refusal::LineTooLong);
        }
        if !can_be_printed(line) {
            return Err(Refusal::NotPrintable);
        }
        match chosen_by(line) {
            Ok(chosen) => chosen.options(),
            Err(refusal) => Err(refusal),
        }
    }
}
