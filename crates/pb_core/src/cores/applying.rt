ghost use Rattle.std.specs.Prelude.{◌≡◌, ◌+◌, ◌≤◌, false, IfOk, OnOk, OnErr};
ghost use Rattle.pb_grammar.specs.Grammar.{command_of};
ghost use Rattle.pb_core.specs.Answer.{CoreState, CanHappen, answer, done_by, IsTold, after_told, EventMayLack, MayLack, line_answer, left_if_open, said_after};
ghost use Rattle.pb_core.specs.Costs.{Costs, CostsLittle};
ghost use Rattle.pb_core.specs.Kept.{Agrees, Stands};
ghost use Rattle.pb_going.specs.Sims.{outdated};
ghost use Rattle.pb_core.specs.Helpers.{is_advance};
ghost use Rattle.pb_core.specs.Sessions.{IsSession, is_open, told_if_open};
ghost use Rattle.pb_core.specs.declared.events.Answer.TheVariants as answers;

use crate::assignments::assign;
use crate::cores::Core;
use crate::events::{Answer, Event};
use crate::queries::query;
use crate::reading::{open_reader, take_piece};
use crate::writes::write;
use pb_grammar::{Command, parse};
use pb_replies::value_reply;
use pb_words::{OutOfMemory, Refusal, Steps};
use std::sync::ledger::Ledger;

impl Core {
    /// Lets an event happen, and answers it. Want of memory comes only in the place of a reply or a piece and where an
    /// acquisition is to be armed, and changes nothing. The counter goes up by one for each block call.
    pub fn apply<L: Ledger>(
        &mut self,
        event: &Event,
        steps: &mut Steps<L>,
    ) -> Result<Answer, OutOfMemory>
        requires { CanHappen event.now }
        ensures ok { (core : CoreState) → Agrees self.old core → IfOk result (IsTold core event.now) }
        ensures core { (core : CoreState) → Agrees self.old core → IfOk result (λ told. Agrees self.new (after_told core event.now told)) }
        ensures err { (core : CoreState) → Agrees self.old core → OnErr result (Agrees self.new core) }
        ensures memory { (core : CoreState) → Agrees self.old core → OnErr result (EventMayLack event.now (answer core event.now)) }
        ensures counts { (core : CoreState) → Agrees self.old core → Costs event.now core self.old self.new steps.old steps.new }
    {
        match event {
            Event::Advance { to, most } => Ok(self.advance(*to, *most, steps)),
            _ => self.stand(event, steps),
        }
    }

    /// Lets an event other than an advance happen, which then stands at now unless memory is wanting.
    fn stand<L: Ledger>(
        &mut self,
        event: &Event,
        steps: &mut Steps<L>,
    ) -> Result<Answer, OutOfMemory>
        requires can { CanHappen event.now }
        requires other { is_advance event.now ≡ false }
        ensures ok { (core : CoreState) → Agrees self.old core → IfOk result (IsTold core event.now) }
        ensures core { (core : CoreState) → Agrees self.old core → IfOk result (λ told. Agrees self.new (after_told core event.now told)) }
        ensures err { (core : CoreState) → Agrees self.old core → OnErr result (Agrees self.new core) }
        ensures memory { (core : CoreState) → Agrees self.old core → OnErr result (EventMayLack event.now (answer core event.now)) }
        ensures counts { CostsLittle event.now self.old self.new steps.old steps.new }
    {
        match self.happen(event, steps) {
            Ok(answer) => {
                self.sim.touch();
                Ok(answer)
            }
            Err(fault) => Err(fault),
        }
    }

    /// What an event other than an advance does, but for the mark.
    fn happen<L: Ledger>(
        &mut self,
        event: &Event,
        steps: &mut Steps<L>,
    ) -> Result<Answer, OutOfMemory>
        requires can { CanHappen event.now }
        requires other { is_advance event.now ≡ false }
        ensures ok { (core : CoreState) → Agrees self.old core → IfOk result (λ told. told ≡ answer core event.now) }
        ensures core { (core : CoreState) → Agrees self.old core → OnOk result (Stands self.new (done_by core event.now)) }
        ensures err { (core : CoreState) → Agrees self.old core → OnErr result (Agrees self.new core) }
        ensures memory { (core : CoreState) → Agrees self.old core → OnErr result (EventMayLack event.now (answer core event.now)) }
        ensures counts { CostsLittle event.now self.old self.new steps.old steps.new }
    {
        match event {
            Event::OpenControl { id } => {
                self.sessions.open(*id);
                Ok(Answer::Nothing)
            }
            Event::Line { id, text } => self.line_of(*id, text.bytes(), steps),
            Event::Bad { id, refusal } => Ok(self.bad(*id, *refusal)),
            Event::CloseControl { id } => {
                self.sessions.close(*id);
                Ok(Answer::Nothing)
            }
            Event::OpenData { id, options } => {
                Ok(open_reader(&mut self.acquisitions, *id, options.bytes()))
            }
            Event::Take { id } => take_piece(&mut self.acquisitions, *id),
            Event::CloseData { id } => {
                self.acquisitions.close(*id);
                Ok(Answer::Nothing)
            }
            Event::Advance { .. } => unreachable!(),
        }
    }

    /// The answer to a whole command of a session, which is answered only if it is open.
    fn line_of<L: Ledger>(
        &mut self,
        id: u32,
        bytes: &[u8],
        steps: &mut Steps<L>,
    ) -> Result<Answer, OutOfMemory>
        requires { IsSession id }
        ensures ok { (core : CoreState) → Agrees self.old core →
            IfOk result (λ told. told ≡ told_if_open (is_open core.sessions id) (line_answer core id (command_of bytes.now))) }
        ensures core { (core : CoreState) → Agrees self.old core → OnOk result (Stands self.new (left_if_open core id (command_of bytes.now))) }
        ensures err { (core : CoreState) → Agrees self.old core → OnErr result (Agrees self.new core) }
        ensures memory { (core : CoreState) → Agrees self.old core →
            OnErr result (MayLack (command_of bytes.now) (told_if_open (is_open core.sessions id) (line_answer core id (command_of bytes.now)))) }
        ensures outdated { outdated self.new.sim ≤ outdated self.old.sim + 1 }
        ensures counts { steps.new ≤ steps.old + 20 }
    {
        if self.is_open(id) {
            self.line(id, bytes, steps)
        } else {
            Ok(Answer::Closed)
        }
    }

    /// The answer to a command that was refused as it was put together.
    fn bad(&self, id: u32, refusal: Refusal) -> Answer
        requires { IsSession id }
        ensures { (core : CoreState) → Agrees self.now core → result ≡ told_if_open (is_open core.sessions id) (answers.Error refusal) }
    {
        if self.is_open(id) {
            Answer::Error(refusal)
        } else {
            Answer::Closed
        }
    }

    /// The answer to a whole command of a session that is open.
    fn line<L: Ledger>(
        &mut self,
        id: u32,
        bytes: &[u8],
        steps: &mut Steps<L>,
    ) -> Result<Answer, OutOfMemory>
        requires { IsSession id }
        ensures ok { (core : CoreState) → Agrees self.old core →
            IfOk result (λ told. told ≡ line_answer core id (command_of bytes.now)) }
        ensures core { (core : CoreState) → Agrees self.old core → OnOk result (Stands self.new (said_after core id (command_of bytes.now))) }
        ensures err { (core : CoreState) → Agrees self.old core → OnErr result (Agrees self.new core) }
        ensures memory { (core : CoreState) → Agrees self.old core →
            OnErr result (MayLack (command_of bytes.now) (line_answer core id (command_of bytes.now))) }
        ensures outdated { outdated self.new.sim ≤ outdated self.old.sim + 1 }
        ensures counts { steps.new ≤ steps.old + 20 }
    {
        match parse(bytes) {
            Command::Query(target) => query(self, id, target, steps),
            Command::Assign(target, value) => assign(self, id, target, value, steps),
            Command::Table {
                target,
                append,
                base64,
                body,
            } => { Ok(write(self, target, append, base64, body, steps)) }
            Command::Echo(text) => Ok(Answer::Reply(value_reply(self.alloc, text)?)),
            Command::Bad(refusal) => Ok(Answer::Error(refusal)),
        }
    }
}
