ghost use Rattle.std.specs.Prelude.{◌≡◌, ◌+◌, ◌≤◌, IfOk, OnOk, OnErr};
ghost use Rattle.pb_words.specs.Refusing.{result_map};
ghost use Rattle.pb_changes.specs.Report.{Reported, after_report, after_reset, report};
ghost use Rattle.pb_changes.specs.Kept.{Keeps};
ghost use Rattle.pb_core.specs.Core.{CoreState};
ghost use Rattle.pb_going.specs.Sims.{outdated};
ghost use Rattle.pb_jump.specs.Changing.{AreAwake};
ghost use Rattle.pb_core.specs.Kept.{Agrees};
ghost use Rattle.pb_core.specs.Answer.{done, left_by};
ghost use Rattle.pb_core.specs.Assignments.{resets, reset_given};
ghost use Rattle.pb_core.specs.Sessions.{IsSession};
ghost use Rattle.pb_core.specs.Telling.{past_of, shows_of, reports_to, after_telling, after_resetting};
ghost use Rattle.pb_core.specs.declared.events.Answer.TheVariants as answers;

use crate::cores::Core;
use crate::events::Answer;
use crate::faces::Seen;
use pb_changes::{Group, Marks};
use pb_words::{OutOfMemory, Refusal, Steps, Text};
use std::sync::ledger::Ledger;

impl Core {
    /// The report of a group, or of all, to a session that is open: what has changed since it was last told. On want of
    /// memory it counts as not told. The blocks with read fields are brought to now before.
    #[inline(never)]
    #[tactic(auto, using(crate::proofs::RunLemmas::woken))]
    pub(crate) fn report<L: Ledger>(
        &mut self,
        id: u32,
        group: Option<Group>,
        steps: &mut Steps<L>,
    ) -> Result<Answer, OutOfMemory>
        requires { IsSession id }
        ensures answer { (core : CoreState) → Agrees self.old core → IfOk result (λ told. told ≡ answers.Reply (reports_to core id group)) }
        ensures core { (core : CoreState) → Agrees self.old core → OnOk result (Agrees self.new (after_telling core id group)) }
        ensures err { (core : CoreState) → Agrees self.old core → OnErr result (Agrees self.new core) }
        ensures outdated { outdated self.new.sim ≡ outdated self.old.sim }
        ensures counts { steps.new ≤ steps.old + 12 }
    {
        self.sim.wake(steps);
        self.report_now(id, group)
    }

    /// The report, where the blocks with read fields stand at now.
    fn report_now(&mut self, id: u32, group: Option<Group>) -> Result<Answer, OutOfMemory>
        requires id { IsSession id }
        requires awake { AreAwake self.old.sim }
        ensures answer { (core : CoreState) → Agrees self.old core → IfOk result (λ told. told ≡ answers.Reply (reports_to core id group)) }
        ensures core { (core : CoreState) → Agrees self.old core → OnOk result (Agrees self.new (after_telling core id group)) }
        ensures err { OnErr result (self.new ≡ self.old) }
        ensures same { self.new.sim ≡ self.old.sim }
    {
        let mut marks = self.sessions.marks(id);
        let text = self.text_since(&mut marks, group)?;
        self.sessions.keep(id, marks);
        Ok(Answer::Reply(text))
    }

    /// The text of a report by these marks, which move on.
    fn text_since(&self, marks: &mut Marks, group: Option<Group>) -> Result<Text, OutOfMemory>
        requires { AreAwake self.now.sim }
        ensures text { (core : CoreState) (reported : Reported) → Agrees self.now core → Keeps marks.old reported →
            IfOk result (λ text. text ≡ report reported (past_of core) (shows_of core) group) }
        ensures marks { (core : CoreState) (reported : Reported) → Agrees self.now core → Keeps marks.old reported →
            OnOk result (Keeps marks.new (after_report reported (past_of core) (shows_of core) group)) }
    {
        let mut face = Seen {
            config: &self.config,
            sim: &self.sim,
        };
        marks.report(self.alloc, group, &mut face)
    }

    /// Resets what was reported of a group, or of all, to a session that is open: with `S` all is reported next, with `E`
    /// or nothing no change up to now is. Another value is refused.
    pub(crate) fn reset_marks<L: Ledger>(
        &mut self,
        id: u32,
        group: Option<Group>,
        value: &[u8],
        steps: &mut Steps<L>,
    ) -> Answer
        requires { IsSession id }
        ensures answer { result ≡ done (reset_given value.now) }
        ensures core { (core : CoreState) → Agrees self.old core → Agrees self.new (left_by core id (result_map (resets group) (reset_given value.now))) }
        ensures outdated { outdated self.new.sim ≡ outdated self.old.sim }
        ensures counts { steps.new ≤ steps.old + 12 }
    {
        match reset_given(value) {
            Ok(all) => {
                self.reset(id, group, all, steps);
                Answer::Ok
            }
            Err(refusal) => Answer::Error(refusal),
        }
    }

    #[inline(never)]
    #[tactic(auto, using(crate::proofs::RunLemmas::woken))]
    fn reset<L: Ledger>(&mut self, id: u32, group: Option<Group>, all: bool, steps: &mut Steps<L>)
        requires { IsSession id }
        ensures core { (core : CoreState) → Agrees self.old core → Agrees self.new (after_resetting core id group all) }
        ensures outdated { outdated self.new.sim ≡ outdated self.old.sim }
        ensures counts { steps.new ≤ steps.old + 12 }
    {
        self.sim.wake(steps);
        self.reset_now(id, group, all);
    }

    /// The reset, where the blocks with read fields stand at now.
    fn reset_now(&mut self, id: u32, group: Option<Group>, all: bool)
        requires id { IsSession id }
        requires awake { AreAwake self.old.sim }
        ensures core { (core : CoreState) → Agrees self.old core → Agrees self.new (after_resetting core id group all) }
        ensures same { self.new.sim ≡ self.old.sim }
    {
        let mut moved = self.sessions.marks(id);
        self.move_marks(&mut moved, group, all);
        self.sessions.keep(id, moved);
    }

    /// The marks move on to now, or back so that all is reported.
    fn move_marks(&self, marks: &mut Marks, group: Option<Group>, all: bool)
        requires { AreAwake self.now.sim }
        ensures { (core : CoreState) (reported : Reported) → Agrees self.now core → Keeps marks.old reported →
            Keeps marks.new (after_reset reported (past_of core) (shows_of core) group all) }
    {
        let mut face = Seen {
            config: &self.config,
            sim: &self.sim,
        };
        marks.reset(group, all, &mut face);
    }
}

/// What the value of a reset means: true where all is to be reported next.
fn reset_given(value: &[u8]) -> Result<bool, Refusal>
    ensures { result ≡ reset_given value.now }
{
    if value == b"S".as_slice() {
        Ok(true)
    } else if value == b"E".as_slice() || value.is_empty() {
        Ok(false)
    } else {
        Err(Refusal::MalformedValue)
    }
}
