use crate::played::Told;
use pb_ports::Sink;
use pb_words::{OutOfMemory, Text};

/// The two ports of the server.
#[derive(Clone, Copy, Debug, PartialEq, Eq)]
pub enum Port {
    /// Commands and their replies.
    Control,
    /// What is captured.
    Data,
}

/// How many bytes are put together before they are written: 64 KiB.
const FULL: usize = 65_536;

ghost use Rattle.std.specs.Prelude.{◌≡◌, ℕ, ◌<◌, ◌≤◌, [], ◌∷◌, ◌++◌, length, codes, decimal, OnOk};
ghost use Rattle.pb_ports.specs.Ports.{Rose};
ghost use Rattle.pb_core.specs.Sessions.{IsSession};
ghost use Rattle.pb_replay.specs.Output.{port_text, section};
ghost use Rattle.pb_replay.specs.Pending.{PlaysOn, AreWritten};

/// Adds the answer to a session as a section to those that are still to be written, and writes them where they are many.
pub(crate) fn write_section<K: Sink>(
    tick: u64,
    port: Port,
    session: u32,
    bytes: &[u8],
    pending: &mut Text,
    output: &mut K,
) -> Told
    requires { IsSession session }
    ensures plays { PlaysOn (section tick port session bytes.now) result pending.old (K.held output.old) pending.new (K.held output.new) }
    ensures cause { result ≡ Told.WriteFault → Rose (K.faults output.old) (K.faults output.new) }
    ensures count { K.faults output.old ≤ K.faults output.new }
{
    if bytes.is_empty() {
        return Told::Ok;
    }
    match add_section(tick, port, session, bytes, pending) {
        Ok(()) => {}
        Err(_) => return Told::OutOfMemory,
    }
    if pending.bytes().len() < FULL {
        return Told::Ok;
    }
    write_pending(pending, output)
}

/// Writes the sections that are still to be written.
pub(crate) fn write_pending<K: Sink>(pending: &mut Text, output: &mut K) -> Told
    ensures plays { AreWritten pending.old result (K.held output.old) (K.held output.new) }
    ensures none { pending.new ≡ [] }
    ensures cause { result ≡ Told.WriteFault → Rose (K.faults output.old) (K.faults output.new) }
    ensures count { K.faults output.old ≤ K.faults output.new }
{
    let written = output.write_all(pending.bytes());
    pending.clear();
    match written {
        Ok(()) => Told::Ok,
        Err(_) => Told::WriteFault,
    }
}

/// Adds the section of an answer that isn't empty.
fn add_section(
    tick: u64,
    port: Port,
    session: u32,
    bytes: &[u8],
    text: &mut Text,
) -> Result<(), OutOfMemory>
    requires some { 0 < length bytes.now }
    requires session { IsSession session }
    ensures { OnOk result (text.new ≡ text.old ++ section tick port session bytes.now) }
{
    text.append_number(tick)?;
    add_receiver(port, session, bytes.len(), text)?;
    text.append(bytes)
}

/// Adds the port and the session of an answer, and how many bytes it has. Most have fewer than ten: then this is one piece.
fn add_receiver(port: Port, session: u32, len: usize, text: &mut Text) -> Result<(), OutOfMemory>
    requires { IsSession session }
    ensures { OnOk result (text.new ≡ text.old ++ port_text port ++ decimal session ++ codes " " ++ decimal len ++ codes "\n") }
{
    if len < 10 {
        return text.append(&receiver_of_few(port, session, len));
    }
    text.append(&receiver(port, session))?;
    text.append_number(len as u64)?;
    text.append(b"\n")
}

/// The letter of a port and the number of a session, with a space before and behind each, and fewer than ten bytes.
#[tactic(auto, using(crate::proofs::HeadLemmas::receiver_of_few_is))]
fn receiver_of_few(port: Port, session: u32, len: usize) -> [u8; 7]
    requires session { IsSession session }
    requires few { len < 10 }
    ensures { result ≡ port_text port ++ decimal session ++ codes " " ++ decimal len ++ codes "\n" }
{
    let number = b'0' + session as u8;
    [
        b' ',
        letter(port),
        b' ',
        number,
        b' ',
        b'0' + len as u8,
        b'\n',
    ]
}

/// The letter of a port and the number of a session, with a space before and behind each.
#[tactic(auto, using(crate::proofs::HeadLemmas::receiver_is))]
fn receiver(port: Port, session: u32) -> [u8; 5]
    requires { IsSession session }
    ensures { result ≡ port_text port ++ decimal session ++ codes " " }
{
    [b' ', letter(port), b' ', b'0' + session as u8, b' ']
}

/// The letter of a port.
fn letter(port: Port) -> u8
    ensures { port_text port ≡ 32 ∷ result ∷ 32 ∷ [] }
{
    match port {
        Port::Control => b'C',
        Port::Data => b'D',
    }
}
