ghost use Rattle.std.specs.Prelude.{◌≡◌, ◌<◌, IfOk};
ghost use Rattle.pb_core.specs.Answer.{CanHappen};

use pb_core::{Answer, Core, Event};
use pb_stim::Stimulus;
use pb_words::{Steps, Text};
use std::alloc::Global;
use std::marker::Brand;
use std::process::Abort;
use std::sync::ledger::{Blank, Ledger};
use std::test::Fail;

/// The box is told to go to this tick; then this line is answered by these bytes.
type Move<'a> = (u64, &'a str, &'a str);

/// TTL input 1 is high and encoder 1 stands at -5 from tick 10 on.
fn stimulus(alloc: Global) -> Result<Stimulus, Fail> {
    let mut stimulus = Stimulus::new(alloc);
    if stimulus.push(10, 0, 1).is_err() {
        stimulus.push(10, 0, 1)?;
    }
    stimulus.push(10, 6, -5)?;
    Ok(stimulus)
}

/// The core with this stimulus. Where memory lacks once, the stimulus comes back.
fn opened(alloc: Global, stimulus: Stimulus) -> Result<Core, Fail> {
    match Core::new(alloc, stimulus) {
        Ok(core) => Ok(core),
        Err(back) => Ok(Core::new(alloc, back)?),
    }
}

/// What an event is answered. Where memory lacks once, nothing changed, and the event happens again.
fn told<L: Ledger>(steps: &mut Steps<L>, core: &mut Core, event: &Event) -> Result<Answer, Fail>
    requires { CanHappen event.now }
{
    if let Ok(answer) = core.apply(event, steps) {
        return Ok(answer);
    }
    Ok(core.apply(event, steps)?)
}

/// The box goes to this tick, of which a session writes nothing. Where memory lacks once for a record it stops on the
/// way, and goes on.
fn go<L: Ledger>(
    rt: &impl Abort,
    steps: &mut Steps<L>,
    core: &mut Core,
    to: u64,
) -> Result<(), Fail> {
    assert!(rt; to < 1 << 62);
    let reached = told(steps, core, &Event::Advance { to, most: 1 << 62 })?;
    assert_eq!(rt; reached.bytes().len(), 0);
    let _reached = told(steps, core, &Event::Advance { to, most: 1 << 62 })?;
    Ok(())
}

/// A line of session 1.
fn line(alloc: Global, bytes: &[u8]) -> Result<Event, Fail>
    ensures { IfOk result CanHappen }
{
    let mut text = Text::new(alloc);
    if text.append(bytes).is_err() {
        text.append(bytes)?;
    }
    Ok(Event::Line { id: 1, text })
}

/// Plays the moves.
fn play<L: Ledger>(
    rt: &impl Abort,
    alloc: Global,
    steps: &mut Steps<L>,
    core: &mut Core,
    moves: &[Move<'_>],
) -> Result<(), Fail> {
    for (to, text, wanted) in moves {
        go(rt, steps, core, *to)?;
        let said = line(alloc, text.as_bytes())?;
        let answer = told(steps, core, &said)?;
        assert_eq!(rt; answer.bytes(), wanted.as_bytes(), "at {to} of {text}");
    }
    Ok(())
}

fn play_from_the_start<L: Ledger>(
    rt: &impl Abort,
    alloc: Global,
    blank: Blank,
    moves: &[Move<'_>],
) -> Result<u64, Fail>
    requires name { blank.name ≡ L.name }
    requires parts { blank.parts ≡ L.parts }
    requires some { 0 < blank.parts }
{
    let mut steps: Steps<L> = Steps::new(blank);
    let mut core = opened(alloc, stimulus(alloc)?)?;
    let _opened = told(&mut steps, &mut core, &Event::OpenControl { id: 1 })?;
    play(rt, alloc, &mut steps, &mut core, moves)?;
    Ok(core.now())
}

/// Also that a tick below now, which no script can name, changes nothing. Each allocation may fail once.
#[test]
fn input_is_seen_one_tick_later(rt: HostRuntime) -> Result<(), Fail> {
    let now = play_from_the_start::<Brand>(
        &rt,
        rt.alloc(),
        Blank::new(1),
        &[
            (0, "LUT1.INPA=TTLIN1.VAL\n", "OK\n"),
            (0, "LUT1.FUNC=~A\n", "OK\n"),
            (10, "LUT1.OUT?\n", "OK =1\n"),
            (11, "LUT1.OUT?\n", "OK =0\n"),
            (11, "INENC1.VAL?\n", "OK =-5\n"),
            (3, "LUT1.OUT?\n", "OK =0\n"),
            (3, "*ECHO hi?\n", "OK =hi\n"),
            (3, "LUT1.OUT.NOPE=1\n", "ERR No such attribute\n"),
        ],
    )?;
    assert_eq!(rt; now, 11);
    Ok(())
}

/// A LUT that feeds itself triggers a record at each odd tick. Each allocation may fail once, those for records too.
#[test]
fn records_are_captured(rt: HostRuntime) -> Result<(), Fail> {
    let now = play_from_the_start::<Brand>(
        &rt,
        rt.alloc(),
        Blank::new(1),
        &[
            (0, "LUT1.INPA=LUT1.OUT\n", "OK\n"),
            (0, "LUT1.FUNC=~A\n", "OK\n"),
            (0, "PCAP.TRIG=LUT1.OUT\n", "OK\n"),
            (0, "PCAP.ENABLE=ONE\n", "OK\n"),
            (0, "INENC1.VAL.CAPTURE=Value\n", "OK\n"),
            (0, "*PCAP.ARM=\n", "OK\n"),
            (2, "*PCAP.CAPTURED?\n", "OK =1\n"),
            (10, "*PCAP.CAPTURED?\n", "OK =5\n"),
            (10, "*PCAP.DISARM=\n", "OK\n"),
            (20, "*PCAP.CAPTURED?\n", "OK =5\n"),
            (20, "*PCAP.COMPLETION?\n", "OK =Disarmed\n"),
        ],
    )?;
    assert_eq!(rt; now, 20);
    Ok(())
}

/// What data session 2 takes, one piece after the other.
fn takes<L: Ledger>(
    rt: &impl Abort,
    steps: &mut Steps<L>,
    core: &mut Core,
    pieces: &[&str],
) -> Result<(), Fail> {
    for wanted in pieces {
        let piece = told(steps, core, &Event::Take { id: 2 })?;
        assert_eq!(rt; piece.bytes(), wanted.as_bytes());
    }
    Ok(())
}

/// Data session 2 opens with these options.
fn reader(alloc: Global, options: &[u8]) -> Result<Event, Fail>
    ensures { IfOk result CanHappen }
{
    let mut text = Text::new(alloc);
    if text.append(options).is_err() {
        text.append(options)?;
    }
    Ok(Event::OpenData {
        id: 2,
        options: text,
    })
}

/// A control session and a data session open. Before that there is nothing to take.
fn open_sessions<L: Ledger>(
    rt: &impl Abort,
    alloc: Global,
    steps: &mut Steps<L>,
    core: &mut Core,
) -> Result<(), Fail> {
    takes(rt, steps, core, &[""])?;
    let _opened = told(steps, core, &Event::OpenControl { id: 1 })?;
    let session = reader(alloc, b"ASCII UNSCALED NO_HEADER ONE_SHOT")?;
    let told_so = told(steps, core, &session)?;
    assert_eq!(rt; told_so.bytes(), b"OK\n".as_slice());
    Ok(())
}

/// What is captured is read while it comes, and after it has ended.
fn read_captured<L: Ledger>(
    rt: &impl Abort,
    alloc: Global,
    steps: &mut Steps<L>,
    core: &mut Core,
) -> Result<(), Fail> {
    play(rt, alloc, steps, core, CAPTURE)?;
    takes(rt, steps, core, &[" 0\n 0\n 0\n 0\n 0\n", ""])?;
    play(rt, alloc, steps, core, DISARM)?;
    takes(rt, steps, core, &[" -5\n", "END 6 Disarmed\n", ""])
}

fn read_from_the_start<L: Ledger>(rt: &impl Abort, alloc: Global, blank: Blank) -> Result<u64, Fail>
    requires name { blank.name ≡ L.name }
    requires parts { blank.parts ≡ L.parts }
    requires some { 0 < blank.parts }
{
    let mut steps: Steps<L> = Steps::new(blank);
    let mut core = opened(alloc, stimulus(alloc)?)?;
    open_sessions(rt, alloc, &mut steps, &mut core)?;
    read_captured(rt, alloc, &mut steps, &mut core)?;
    Ok(core.now())
}

/// A LUT that feeds itself triggers a record at each odd tick.
const CAPTURE: &[Move<'static>] = &[
    (0, "LUT1.INPA=LUT1.OUT\n", "OK\n"),
    (0, "LUT1.FUNC=~A\n", "OK\n"),
    (0, "PCAP.TRIG=LUT1.OUT\n", "OK\n"),
    (0, "PCAP.ENABLE=ONE\n", "OK\n"),
    (0, "INENC1.VAL.CAPTURE=Value\n", "OK\n"),
    (0, "*PCAP.STATUS?\n", "OK =Idle 1 0\n"),
    (0, "*PCAP.ARM=\n", "OK\n"),
    (10, "*PCAP.STATUS?\n", "OK =Busy 1 1\n"),
];

const DISARM: &[Move<'static>] = &[
    (12, "*WHO?\n", "!C 1\n!D 2\n.\n"),
    (12, "*PCAP.DISARM=\n", "OK\n"),
];

/// Each allocation may fail once, those for pieces too.
#[test]
fn captured_records_are_read(rt: HostRuntime) -> Result<(), Fail> {
    let now = read_from_the_start::<Brand>(&rt, rt.alloc(), Blank::new(1))?;
    assert_eq!(rt; now, 12);
    Ok(())
}
