ghost use Rattle.std.specs.Prelude.{◌≡◌, ◌↔◌, IsTrue, IfSome, IfNone, IfOk, IsErrOf, Some, codes, option_map, slice_get};
ghost use Rattle.pb_cli.specs.ServeWords.{StartsAt};
ghost use Rattle.pb_cli.specs.Reading.{HasNoPort, HasPort};

use crate::options::find_options;
use crate::texts::texts_of;
use pb_words::{Text, read_uint};
use std::alloc::Global;

/// The two ports of a server.
#[derive(Clone, Copy, Debug, PartialEq, Eq)]
pub struct Ports {
    /// The port of the control sessions, 1 to 65535.
    pub control: u16,
    /// The port of the data sessions, 1 to 65535 and another one.
    pub records: u16,
}

/// Why words start no server.
#[derive(Clone, Copy, Debug, PartialEq, Eq)]
pub enum PortsFault {
    /// They aren't the words of `serve`, or both ports are the same number.
    Usage,
    /// There is no memory to read them.
    OutOfMemory,
}

/// Whether the first word is `serve`.
pub fn starts_server(words: &[Text]) -> bool
    ensures { IsTrue result ↔ (slice_get words.now 0 ≡ Some (codes "serve")) }
{
    match words {
        [first, ..] => first.bytes() == b"serve".as_slice(),
        [] => false,
    }
}

/// The ports at which these words start the server. They begin with `serve`.
pub fn read_ports(alloc: Global, words: &[Text]) -> Result<Ports, PortsFault>
    ensures ok { IfOk result (λ ports. StartsAt words.now ports) }
    ensures usage { IsErrOf result PortsFault.Usage → (ports : Ports) → ¬ (StartsAt words.now ports) }
{
    if !starts_server(words) {
        return Err(PortsFault::Usage);
    }
    let texts = texts_of(alloc, words)?;
    let (control, records) = find_options(alloc, texts.as_slice())?;
    let Some(control) = port_in(control) else {
        return Err(PortsFault::Usage);
    };
    let Some(records) = port_in(records) else {
        return Err(PortsFault::Usage);
    };
    if control == records {
        Err(PortsFault::Usage)
    } else {
        Ok(Ports { control, records })
    }
}

/// The port of this number, which is 1 to 65535.
fn port_in(text: Option<&str>) -> Option<u16>
    ensures found { IfSome result (λ port. HasPort (option_map (λ s. s.now) text.entry) port) }
    ensures none { IfNone result (HasNoPort (option_map (λ s. s.now) text.entry)) }
{
    match read_uint(text?.as_bytes(), 65_535) {
        Ok(port) if port >= 1 => Some(port as u16),
        _ => None,
    }
}
