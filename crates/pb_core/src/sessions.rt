ghost use Rattle.std.specs.Prelude.{◌≡◌, List, Option, Some, None};
ghost use Rattle.pb_changes.specs.Report.{Reported, opening};
ghost use Rattle.pb_changes.specs.Kept.{Keeps};
ghost use Rattle.pb_core.specs.Kept.{AreKept};
ghost use Rattle.pb_core.specs.Sessions.{IsSession};
ghost use Rattle.pb_core.specs.Sessions as definition;

use pb_changes::Marks;
use std::marker::Model;

/// Which of the control sessions 1 to 8 are open, and what was last reported to each.
#[derive(Drop)]
pub(crate) struct Sessions {
    open: [Option<Marks>; 8],
}

impl Model for Sessions {
    ghost use Rattle.std.specs.Prelude.{◌≡◌, List, Option, length};
    ghost use Rattle.pb_changes.specs.declared.Marks.{Marks};

    ghost Value = { List (Option Marks) };

    ghost view = { λ s. s.open };

    ghost invariant = { λ s. length s.open ≡ 8 };
}

impl Sessions {
    /// None is open.
    pub(crate) fn new() -> Sessions
        ensures { result ≡ definition.none_open }
    {
        Sessions { open: [None; 8] }
    }

    pub(crate) fn is_open(&self, id: u32) -> bool
        requires { IsSession id }
        ensures { result ≡ definition.is_open self.now id }
    {
        self.open[(id - 1) as usize].is_some()
    }

    /// The session opens: all is reported to it next.
    #[inline(never)]
    pub(crate) fn open(&mut self, id: u32)
        requires { IsSession id }
        ensures { (sessions : List (Option Reported)) → AreKept self.old sessions → AreKept self.new (definition.with_session id (Some opening) sessions) }
    {
        self.keep(id, Marks::new());
    }

    /// What was last reported to the session.
    pub(crate) fn marks(&self, id: u32) -> Marks
        requires { IsSession id }
        ensures { (sessions : List (Option Reported)) → AreKept self.now sessions → Keeps result (definition.reported_to sessions id) }
    {
        match self.open[(id - 1) as usize] {
            Some(marks) => marks,
            None => Marks::new(),
        }
    }

    /// The session is open, and this was last reported to it.
    pub(crate) fn keep(&mut self, id: u32, marks: Marks)
        requires { IsSession id }
        ensures { self.new ≡ definition.with_session id (Some marks) self.old }
    {
        self.open[(id - 1) as usize] = Some(marks);
    }

    #[inline(never)]
    pub(crate) fn close(&mut self, id: u32)
        requires { IsSession id }
        ensures { (sessions : List (Option Reported)) → AreKept self.old sessions → AreKept self.new (definition.with_session id None sessions) }
    {
        self.open[(id - 1) as usize] = None;
    }
}
