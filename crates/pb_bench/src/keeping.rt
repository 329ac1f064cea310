ghost use Rattle.std.specs.Prelude.{◌≡◌, ◌≤◌, Some, OnErr};
ghost use Rattle.pb_ports.specs.Ports.{Rose, Writes};
ghost use Rattle.pb_bench.specs.Keeping.{nothing_kept};

use pb_ports::{Failed, Sink};
use pb_words::Text;
use std::alloc::Global;
use std::marker::Model;

/// A sink that keeps what is written. A write fails where there is no memory for it.
#[derive(Debug, Drop)]
pub struct KeptOutput {
    text: Text,
    failed: u64,
}

impl Model for KeptOutput {
    ghost use Rattle.pb_bench.specs.Keeping.{KeptBytes};

    ghost Value = { KeptBytes };

    ghost view = { λ s. record { held = s.text; faults = s.failed } };
}

impl KeptOutput {
    /// Nothing is kept yet.
    pub fn new(alloc: Global) -> KeptOutput
        ensures { result ≡ nothing_kept }
    {
        KeptOutput {
            text: Text::new(alloc),
            failed: 0,
        }
    }

    /// The bytes that were written.
    pub fn bytes(&self) -> &[u8]
        ensures { result.now ≡ self.now.held }
    {
        self.text.bytes()
    }
}

impl Sink for KeptOutput {
    ghost held = { λ s. Some s.held };

    ghost faults = { λ s. s.faults };

    fn write_all(&mut self, bytes: &[u8]) -> Result<(), Failed>
        ensures writes { Writes (Some self.old.held) bytes.now result (Some self.new.held) }
        ensures cause { OnErr result (Rose self.old.faults self.new.faults) }
        ensures count { self.old.faults ≤ self.new.faults }
    {
        match self.text.append(bytes) {
            Ok(()) => Ok(()),
            Err(_) => {
                self.failed = self.failed.saturating_add(1);
                Err(Failed)
            }
        }
    }
}
