ghost use Rattle.std.specs.Prelude.{◌≡◌, ℕ, ◌+◌, ◌≤◌, true, Ok, IfOk, OnOk, OnErr};
ghost use Rattle.pb_words.specs.Refusing.{result_map};
ghost use Rattle.pb_acquire.specs.Acquisitions.{AllAcquisitions};
ghost use Rattle.pb_acquire.specs.Kept as acquire;
ghost use Rattle.pb_config.specs.Capturing.{layout_of};
ghost use Rattle.pb_fields.specs.Slots.{IsSlot};
ghost use Rattle.pb_model.specs.Kept.{stands_of};
ghost use Rattle.pb_going.specs.Sims.{outdated};
ghost use Rattle.pb_core.specs.Answer.{CoreState, done, left_by, written_by};
ghost use Rattle.pb_core.specs.Assignments.{gives, captures, slot_given};
ghost use Rattle.pb_core.specs.Captures.{clears, without_value, arming, disarming};
ghost use Rattle.pb_core.specs.Kept.{box_of, Agrees, Stands};
ghost use Rattle.pb_core.specs.declared.events.Answer.TheVariants as answers;
ghost use Rattle.pb_core.specs.Writing.{is_table, table_written};

use crate::cores::Core;
use crate::events::Answer;
use pb_acquire::ArmFault;
use pb_fields::Slot;
use pb_model::Change;
use pb_words::{OutOfMemory, Refusal, Steps};
use std::sync::ledger::Ledger;

impl Core {
    /// The slot takes a value. A value that is refused changes nothing.
    #[tactic(auto, using(crate::proofs::RunLemmas::one_outdated, crate::proofs::RunLemmas::one_call))]
    pub(crate) fn set<L: Ledger>(
        &mut self,
        slot: Slot,
        value: &[u8],
        steps: &mut Steps<L>,
    ) -> Answer
        requires { IsSlot slot }
        ensures answer { result ≡ done (slot_given self.old.config.settings value.now slot) }
        ensures core { (core : CoreState) (id : ℕ) → Agrees self.old core →
            Stands self.new (left_by core id (result_map gives (slot_given core.settings value.now slot))) }
        ensures outdated { outdated self.new.sim ≤ outdated self.old.sim + 1 }
        ensures counts { steps.new ≤ steps.old + 1 }
    {
        match self.config.assign(slot, value) {
            Ok(Some(change)) => {
                self.sim.change(change, steps);
                Answer::Ok
            }
            Ok(None) => Answer::Ok,
            Err(refusal) => Answer::Error(refusal),
        }
    }

    /// Every CAPTURE becomes No, which is an assignment of each. The command takes no value.
    #[tactic(auto, using(crate::proofs::RunLemmas::stands_same, crate::proofs::CoreLemmas::clears_stands))]
    pub(crate) fn clear_captures(&mut self, value: &[u8]) -> Answer
        ensures answer { result ≡ done (without_value value.now (Ok clears)) }
        ensures core { (core : CoreState) (id : ℕ) → Agrees self.old core →
            Stands self.new (left_by core id (result_map captures (without_value value.now (Ok clears)))) }
        ensures outdated { outdated self.new.sim ≡ outdated self.old.sim }
    {
        if !value.is_empty() {
            return Answer::Error(Refusal::MalformedValue);
        }
        self.config.clear_captures();
        Answer::Ok
    }

    /// Arms an acquisition with the layout by the settings. The command takes no value. It is refused where one
    /// is armed or running, and where nothing is captured. Want of memory changes nothing.
    #[tactic(auto, using(crate::proofs::RunLemmas::stands_same, crate::proofs::CoreLemmas::arms_stands, crate::proofs::RunLemmas::one_outdated, crate::proofs::RunLemmas::one_call))]
    pub(crate) fn arm<L: Ledger>(
        &mut self,
        value: &[u8],
        steps: &mut Steps<L>,
    ) -> Result<Answer, OutOfMemory>
        ensures answer { (all : AllAcquisitions) → acquire.Agrees self.old.acquisitions all →
            IfOk result (λ told. told ≡ done (without_value value.now (arming all (layout_of self.old.config.settings)))) }
        ensures core { (core : CoreState) (id : ℕ) → Agrees self.old core →
            OnOk result (Stands self.new (left_by core id (result_map captures (without_value value.now (arming core.acquisitions (layout_of core.settings)))))) }
        ensures err { OnErr result (self.new ≡ self.old) }
        ensures memory { (all : AllAcquisitions) → acquire.Agrees self.old.acquisitions all →
            OnErr result (done (without_value value.now (arming all (layout_of self.old.config.settings))) ≡ answers.Ok) }
        ensures outdated { outdated self.new.sim ≤ outdated self.old.sim + 1 }
        ensures counts { steps.new ≤ steps.old + 1 }
    {
        if !value.is_empty() {
            return Ok(Answer::Error(Refusal::MalformedValue));
        }
        match self.acquisitions.arm(self.config.layout()) {
            Ok(room) => {
                self.sim.change(Change::Arm { room }, steps);
                Ok(Answer::Ok)
            }
            Err(ArmFault::Refused(refusal)) => Ok(Answer::Error(refusal)),
            Err(ArmFault::OutOfMemory) => Err(OutOfMemory),
        }
    }

    /// Ends the acquisition that is armed or running. The command takes no value. It is refused where there is none.
    #[tactic(auto, using(crate::proofs::RunLemmas::stands_same, crate::proofs::CoreLemmas::disarms_stands, crate::proofs::RunLemmas::one_outdated, crate::proofs::RunLemmas::one_call))]
    pub(crate) fn disarm<L: Ledger>(&mut self, value: &[u8], steps: &mut Steps<L>) -> Answer
        ensures answer { (all : AllAcquisitions) → acquire.Agrees self.old.acquisitions all →
            result ≡ done (without_value value.now (disarming all)) }
        ensures core { (core : CoreState) (id : ℕ) → Agrees self.old core →
            Stands self.new (left_by core id (result_map captures (without_value value.now (disarming core.acquisitions)))) }
        ensures outdated { outdated self.new.sim ≤ outdated self.old.sim + 1 }
        ensures counts { steps.new ≤ steps.old + 1 }
    {
        if !value.is_empty() {
            return Answer::Error(Refusal::MalformedValue);
        }
        if let Err(refusal) = self.acquisitions.disarm() {
            return Answer::Error(refusal);
        }
        self.sim.change(Change::Disarm, steps);
        Answer::Ok
    }

    /// The table takes the words of a body, which is an assignment of it. A body that is refused changes nothing.
    #[tactic(auto, using(crate::proofs::TableLemmas::table_number, crate::proofs::TableLemmas::table_role, crate::proofs::TableLemmas::table_done, crate::proofs::TableLemmas::table_refused, crate::proofs::RunLemmas::one_outdated, crate::proofs::RunLemmas::one_call))]
    pub(crate) fn write_table<L: Ledger>(
        &mut self,
        slot: Slot,
        append: bool,
        base64: bool,
        body: &[u8],
        steps: &mut Steps<L>,
    ) -> Answer
        requires slot { IsSlot slot }
        requires table { is_table slot ≡ true }
        ensures answer { result ≡ done (table_written (stands_of (box_of self.old)) append base64 body.now slot) }
        ensures core { (core : CoreState) → Agrees self.old core →
            Stands self.new (written_by core (table_written core.box.stands append base64 body.now slot)) }
        ensures outdated { outdated self.new.sim ≤ outdated self.old.sim + 1 }
        ensures counts { steps.new ≤ steps.old + 1 }
    {
        match self
            .sim
            .write_table(slot.instance, append, base64, body, steps)
        {
            Ok(()) => {
                self.config.note(slot);
                Answer::Ok
            }
            Err(reason) => Answer::Error(reason),
        }
    }
}
