ghost use Rattle.std.specs.Prelude.{◌≡◌, IfOk, OnOk, OnErr};
ghost use Rattle.pb_encode.specs.Choosing.{options_of};
ghost use Rattle.pb_acquire.specs.Acquisitions.{AllAcquisitions};
ghost use Rattle.pb_acquire.specs.Kept as acquire;
ghost use Rattle.pb_acquire.specs.Taking.{after_take};
ghost use Rattle.pb_core.specs.Sessions.{IsSession, opened_answer, opened_by, taken_answer};
ghost use Rattle.pb_core.specs.Answer.{IsPiece};

use crate::events::Answer;
use pb_acquire::{Acquisitions, Piece};
use pb_encode::Options;
use pb_words::OutOfMemory;

/// The answer to the opening of a data session with this options line. Where it is refused nothing changes.
#[inline(never)]
pub(crate) fn open_reader(acquisitions: &mut Acquisitions, id: u32, line: &[u8]) -> Answer
    requires { IsSession id }
    ensures answer { result ≡ opened_answer (options_of line.now) }
    ensures agrees { (all : AllAcquisitions) → acquire.Agrees acquisitions.old all → acquire.Agrees acquisitions.new (opened_by id (options_of line.now) all) }
    ensures running { acquisitions.new.running ≡ acquisitions.old.running }
{
    match Options::parse(line) {
        Ok(options) => {
            acquisitions.open(id, options);
            Answer::Opened {
                status: options.status,
            }
        }
        Err(refusal) => Answer::Error(refusal),
    }
}

/// The answer to a data session that takes. Want of memory comes only in the place of a piece, and changes nothing.
#[inline(never)]
pub(crate) fn take_piece(acquisitions: &mut Acquisitions, id: u32) -> Result<Answer, OutOfMemory>
    requires { IsSession id }
    ensures answer { (all : AllAcquisitions) → acquire.Agrees acquisitions.old all → IfOk result (λ told. told ≡ taken_answer all id) }
    ensures agrees { (all : AllAcquisitions) → acquire.Agrees acquisitions.old all → OnOk result (acquire.Agrees acquisitions.new (after_take id all)) }
    ensures memory { (all : AllAcquisitions) → acquire.Agrees acquisitions.old all → OnErr result (IsPiece (taken_answer all id)) }
    ensures err { OnErr result (acquisitions.new ≡ acquisitions.old) }
    ensures running { acquisitions.new.running ≡ acquisitions.old.running }
{
    if !acquisitions.is_open(id) {
        return Ok(Answer::Closed);
    }
    match acquisitions.take(id) {
        Ok(Piece::Bytes(text)) => Ok(Answer::Piece(text)),
        Ok(Piece::NotYet) => Ok(Answer::NotYet),
        Ok(Piece::Done) => Ok(Answer::Finished),
        Err(fault) => Err(fault),
    }
}
