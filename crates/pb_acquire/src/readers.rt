ghost use Rattle.std.specs.Prelude.{◌≡◌, ◌≤◌, ◌<◌, ◌+◌, ◌^◌};
ghost use Rattle.pb_acquire.specs.Readers as definition;

use pb_encode::Options;
use pb_words::Text;

/// A client that takes acquisitions, one after the other or one alone.
#[derive(Clone, Copy, Debug, PartialEq, Eq)]
pub struct Reader {
    pub options: Options,
    /// How many acquisitions came before its own.
    pub before: u64,
    /// Whether the header of its own is wanted and still to come.
    pub header_is_owed: bool,
    /// How many records of its own it was given.
    pub given: u64,
    /// Whether it is a reader of one alone and took the end of it.
    pub has_ended: bool,
}

/// What a reader is handed.
#[derive(Debug, Drop)]
pub enum Piece {
    /// A header, records or an end, as they were asked for. An end is empty where no status is wanted.
    Bytes(Text),
    /// Nothing yet.
    NotYet,
    /// Nothing any more.
    Done,
}

/// What a reader takes.
#[derive(Debug, Drop)]
pub enum Taken {
    /// Nothing any more.
    Done,
    /// Nothing yet.
    NotYet,
    /// These bytes, and the reader is this one afterwards.
    Bytes { text: Text, reader: Reader },
}

impl Reader {
    /// A reader that was given nothing yet of the acquisition that so many came before.
    pub(crate) fn from(options: Options, before: u64) -> Reader
        ensures { result ≡ definition.reader_from options before }
    {
        Reader {
            options,
            before,
            header_is_owed: options.header,
            given: 0,
            has_ended: false,
        }
    }

    /// Whether it has still to take from the acquisition that so many came before.
    fn needs(&self, place: u64) -> bool
        ensures { result ≡ definition.needs self.now place }
    {
        if self.has_ended {
            return false;
        }
        if self.options.one_shot {
            self.before == place
        } else {
            self.before <= place
        }
    }

    /// The reader after it was given the header.
    pub(crate) fn after_header(&self) -> Reader
        ensures { result ≡ definition.after_header self.now }
    {
        Reader {
            header_is_owed: false,
            ..*self
        }
    }

    /// The reader after it was given so many records.
    pub(crate) fn after_records(&self, count: u64) -> Reader
        requires { self.now.given + count < 2 ^ 64 }
        ensures { result ≡ definition.after_records self.now count }
    {
        Reader {
            given: self.given + count,
            ..*self
        }
    }

    /// The reader after it was given the end.
    pub(crate) fn after_end(&self) -> Reader
        requires { self.now.before + 1 < 2 ^ 64 }
        ensures { result ≡ definition.after_end self.now }
    {
        if self.options.one_shot {
            Reader {
                has_ended: true,
                ..*self
            }
        } else {
            Reader::from(self.options, self.before + 1)
        }
    }
}

/// Whether a reader that is open has still to take from the acquisition that so many came before.
fn open_needs(place: u64, reader: &Option<Reader>) -> bool
    ensures { result ≡ definition.open_needs place reader.now }
{
    match reader {
        Some(reader) => reader.needs(place),
        None => false,
    }
}

/// Whether one of these has.
pub(crate) fn is_needed(readers: &[Option<Reader>], place: u64) -> bool
    ensures { result ≡ definition.is_needed readers.now place }
{
    readers.iter().any(|reader| open_needs(place, reader))
}
