ghost use Rattle.std.specs.Prelude.{◌≡◌};

/// Why a command is refused, in the order in which the tests are made.
#[derive(Clone, Copy, Debug, PartialEq, Eq, Hash)]
pub enum Refusal {
    LineTooLong,
    NotPrintable,
    MalformedCommand,
    NoSuchBlock,
    BlockNumberOutOfRange,
    NoSuchField,
    NoSuchAttribute,
    NotReadable,
    NotWriteable,
    MalformedValue,
    ValueOutOfRange,
    UnknownLabel,
    TableTooLong,
    NotWholeRows,
    MalformedBase64,
    AlreadyArmed,
    NotArmed,
    NothingCaptured,
    TooManyHeld,
    OutOfMemory,
    UnknownOption,
    ScaledNeedsAscii,
}

impl Refusal {
    ghost use Rattle.pb_words.specs.Refusals.{number_of, line_of};

    /// The number of the refusal, 1 to 22.
    pub fn number(self) -> u8
        ensures { result ≡ number_of self }
    {
        match self {
            Refusal::LineTooLong => 1,
            Refusal::NotPrintable => 2,
            Refusal::MalformedCommand => 3,
            Refusal::NoSuchBlock => 4,
            Refusal::BlockNumberOutOfRange => 5,
            Refusal::NoSuchField => 6,
            Refusal::NoSuchAttribute => 7,
            Refusal::NotReadable => 8,
            Refusal::NotWriteable => 9,
            Refusal::MalformedValue => 10,
            Refusal::ValueOutOfRange => 11,
            Refusal::UnknownLabel => 12,
            Refusal::TableTooLong => 13,
            Refusal::NotWholeRows => 14,
            Refusal::MalformedBase64 => 15,
            Refusal::AlreadyArmed => 16,
            Refusal::NotArmed => 17,
            Refusal::NothingCaptured => 18,
            Refusal::TooManyHeld => 19,
            Refusal::OutOfMemory => 20,
            Refusal::UnknownOption => 21,
            Refusal::ScaledNeedsAscii => 22,
        }
    }

    /// The line that answers a refused command, its newline included.
    pub fn line(self) -> &'static [u8]
        ensures { result.now ≡ line_of self }
    {
        match self {
            Refusal::LineTooLong => b"ERR Line too long\n",
            Refusal::NotPrintable => b"ERR Not printable\n",
            Refusal::MalformedCommand => b"ERR Malformed command\n",
            Refusal::NoSuchBlock => b"ERR No such block\n",
            Refusal::BlockNumberOutOfRange => b"ERR Block number out of range\n",
            Refusal::NoSuchField => b"ERR No such field\n",
            Refusal::NoSuchAttribute => b"ERR No such attribute\n",
            Refusal::NotReadable => b"ERR Not readable\n",
            Refusal::NotWriteable => b"ERR Not writeable\n",
            Refusal::MalformedValue => b"ERR Malformed value\n",
            Refusal::ValueOutOfRange => b"ERR Value out of range\n",
            Refusal::UnknownLabel => b"ERR Unknown label\n",
            Refusal::TableTooLong => b"ERR Table too long\n",
            Refusal::NotWholeRows => b"ERR Not whole rows\n",
            Refusal::MalformedBase64 => b"ERR Malformed base64\n",
            Refusal::AlreadyArmed => b"ERR Already armed\n",
            Refusal::NotArmed => b"ERR Not armed\n",
            Refusal::NothingCaptured => b"ERR Nothing captured\n",
            Refusal::TooManyHeld => b"ERR Too many acquisitions held\n",
            Refusal::OutOfMemory => b"ERR Out of memory\n",
            Refusal::UnknownOption => b"ERR Unknown option\n",
            Refusal::ScaledNeedsAscii => b"ERR SCALED needs ASCII\n",
        }
    }
}
