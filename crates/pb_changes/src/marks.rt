ghost use Rattle.std.specs.Prelude.{◌≡◌, ◌+◌, ◌≤◌, ◌++◌, IfOk, OnOk, OnErr};
ghost use Rattle.std.specs.List.{flat_map, fold};
ghost use Rattle.pb_replies.specs.Replies.{listed};

use crate::faces::Face;
use crate::groups::{Group, asked};
use crate::reads::{READS, add_reads, read_values};
use crate::walks::add_changed;
use pb_words::{OutOfMemory, Text};
use std::alloc::Global;

/// What was last reported to a session. Where a mark is missing, all of its group is reported next.
#[derive(Clone, Copy, Debug)]
pub struct Marks {
    /// How many assignments had been accepted when the group was last reported.
    config: Option<u64>,
    attr: Option<u64>,
    table: Option<u64>,
    /// The tick at which the group was last reported.
    bits: Option<u64>,
    posn: Option<u64>,
    /// The raw values of the read fields as they were last shown, in the order of the catalogue.
    read: Option<[u64; READS]>,
}

impl Marks {
    ghost use Rattle.pb_changes.specs.Past.{Past, AgreesWithPast};
    ghost use Rattle.pb_changes.specs.Report.{Reported, opening, lines, report, noted, reopened, after_report, after_reset};
    ghost use Rattle.pb_changes.specs.Groups.{asked};
    ghost use Rattle.pb_changes.specs.Kept.{Keeps};

    /// The marks of a session that has just opened: all is reported next.
    pub fn new() -> Marks
        ensures { Keeps result opening }
    {
        Marks {
            config: None,
            attr: None,
            table: None,
            bits: None,
            posn: None,
            read: None,
        }
    }

    /// The report of a group, or of all six groups: what has changed since it was last reported or reset. On
    /// want of memory the marks stay as they were.
    pub fn report<F: Face>(
        &mut self,
        alloc: Global,
        group: Option<Group>,
        face: &mut F,
    ) -> Result<Text, OutOfMemory>
        ensures text { (past : Past) (reported : Reported) → AgreesWithPast (F.told face.old) past → Keeps self.old reported →
            IfOk result (λ text. text ≡ report reported past (F.told face.old).shows group) }
        ensures marks { (past : Past) (reported : Reported) → AgreesWithPast (F.told face.old) past → Keeps self.old reported →
            OnOk result (Keeps self.new (after_report reported past (F.told face.old).shows group)) }
        ensures err { OnErr result (self.new ≡ self.old) }
        ensures same { F.told face.new ≡ F.told face.old }
        ensures work { F.spent face.new + F.left face.new ≤ F.spent face.old + F.left face.old }
    {
        let text = self.text(alloc, group, face)?;
        self.note_all(group, face);
        Ok(text)
    }

    /// Lets all of a group, or of all six groups, be reported next; or, unless `all` is set, nothing of what
    /// has changed up to now.
    pub fn reset<F: Face>(&mut self, group: Option<Group>, all: bool, face: &mut F)
        ensures marks { (past : Past) (reported : Reported) → AgreesWithPast (F.told face.old) past → Keeps self.old reported →
            Keeps self.new (after_reset reported past (F.told face.old).shows group all) }
        ensures same { F.told face.new ≡ F.told face.old }
        ensures work { F.spent face.new + F.left face.new ≤ F.spent face.old + F.left face.old }
    {
        if all {
            self.reopen_all(group);
        } else {
            self.note_all(group, face);
        }
    }

    /// The bytes of the report.
    fn text<F: Face>(
        &self,
        alloc: Global,
        group: Option<Group>,
        face: &mut F,
    ) -> Result<Text, OutOfMemory>
        ensures text { (past : Past) (reported : Reported) → AgreesWithPast (F.told face.old) past → Keeps self.now reported →
            IfOk result (λ text. text ≡ report reported past (F.told face.old).shows group) }
        ensures same { F.told face.new ≡ F.told face.old }
        ensures work { F.spent face.new + F.left face.new ≤ F.spent face.old + F.left face.old }
    {
        let mut text = Text::new(alloc);
        for group in asked(group) {
            self.add_group(*group, face, &mut text)?;
        }
        text.append(b".\n")?;
        Ok(text)
    }

    /// Adds the lines of a group.
    fn add_group<F: Face>(
        &self,
        group: Group,
        face: &mut F,
        text: &mut Text,
    ) -> Result<(), OutOfMemory>
        ensures lines { (past : Past) (reported : Reported) → AgreesWithPast (F.told face.old) past → Keeps self.now reported →
            OnOk result (text.new ≡ text.old ++ flat_map listed (lines reported past (F.told face.old).shows group)) }
        ensures same { F.told face.new ≡ F.told face.old }
        ensures work { F.spent face.new + F.left face.new ≤ F.spent face.old + F.left face.old }
    {
        match group {
            Group::Config => add_changed(text, group, self.config, face),
            Group::Attr => add_changed(text, group, self.attr, face),
            Group::Table => add_changed(text, group, self.table, face),
            Group::Bits => add_changed(text, group, self.bits, face),
            Group::Posn => add_changed(text, group, self.posn, face),
            Group::Read => {
                let values = read_values(face);
                add_reads(text, &self.read, &values)
            }
        }
    }

    /// Notes for each of the groups that nothing up to now is reported next.
    fn note_all<F: Face>(&mut self, group: Option<Group>, face: &mut F)
        ensures marks { (past : Past) (reported : Reported) → AgreesWithPast (F.told face.old) past → Keeps self.old reported →
            Keeps self.new (after_report reported past (F.told face.old).shows group) }
        ensures same { F.told face.new ≡ F.told face.old }
        ensures work { F.spent face.new + F.left face.new ≤ F.spent face.old + F.left face.old }
    {
        for group in asked(group) {
            self.note(*group, face);
        }
    }

    /// Notes that nothing of the group up to now is reported next.
    fn note<F: Face>(&mut self, group: Group, face: &mut F)
        ensures marks { (past : Past) (reported : Reported) → AgreesWithPast (F.told face.old) past → Keeps self.old reported →
            Keeps self.new (noted past (F.told face.old).shows reported group) }
        ensures same { F.told face.new ≡ F.told face.old }
        ensures work { F.spent face.new + F.left face.new ≤ F.spent face.old + F.left face.old }
    {
        match group {
            Group::Config => self.config = Some(face.assignments()),
            Group::Attr => self.attr = Some(face.assignments()),
            Group::Table => self.table = Some(face.assignments()),
            Group::Bits => self.bits = Some(face.now()),
            Group::Posn => self.posn = Some(face.now()),
            Group::Read => self.read = Some(read_values(face)),
        }
    }

    /// Lets all of each of the groups be reported next.
    fn reopen_all(&mut self, group: Option<Group>)
        ensures { (reported : Reported) → Keeps self.old reported → Keeps self.new (fold reopened reported (asked group)) }
    {
        for group in asked(group) {
            self.reopen(*group);
        }
    }

    /// Lets all of the group be reported next.
    fn reopen(&mut self, group: Group)
        ensures { (reported : Reported) → Keeps self.old reported → Keeps self.new (reopened reported group) }
    {
        match group {
            Group::Config => self.config = None,
            Group::Attr => self.attr = None,
            Group::Table => self.table = None,
            Group::Bits => self.bits = None,
            Group::Posn => self.posn = None,
            Group::Read => self.read = None,
        }
    }
}
