ghost use Rattle.std.specs.Prelude.{◌≡◌, ◌+◌, ◌<◌, ◌≤◌, ◌/◌, ◌^◌, ◌++◌, IfOk, OnOk};
ghost use Rattle.pb_stim.specs.Making.{drawn_after, drawn, tick_of, settings, line_at, point, points, ending, made};

use pb_words::{OutOfMemory, Text};
use std::alloc::Global;

/// A script of `n` points, from 1 to 100,000: at each of them TTL input 1 is 1 for one tick, and PCAP captures the number of points before
/// and the time. The seed chooses how far they lie apart. The same numbers give the same script.
pub fn make(alloc: Global, n: u32, seed: u64) -> Result<Text, OutOfMemory>
    requires some { 1 ≤ n }
    requires most { n ≤ 100000 }
    ensures { IfOk result (λ text. text ≡ made n seed) }
{
    let mut text = Text::new(alloc);
    add_settings(&mut text)?;
    let mut x = seed;
    let mut tick = 10;
    for _i in 0..n {
        x = draw(x);
        tick = tick_after(tick, x);
        add_point(&mut text, tick)?;
    }
    add_ending(&mut text, tick + 10)?;
    Ok(text)
}

/// What is drawn after this.
fn draw(x: u64) -> u64
    ensures { result ≡ drawn_after x }
{
    x.wrapping_mul(6_364_136_223_846_793_005)
        .wrapping_add(1_442_695_040_888_963_407)
}

/// The tick of the point for which this was drawn, by that of the point before.
fn tick_after(tick: u64, x: u64) -> u64
    requires { tick < 2 ^ 62 }
    ensures next { result ≡ tick + 2 + x / 2 ^ 54 }
    ensures near { result ≤ tick + 1025 }
{
    tick + 2 + (x >> 54)
}

/// What is set at tick 0.
const SETTINGS: &[u8] = b"0 C 1 COUNTER1.TRIG=TTLIN1.VAL
0 C 1 PCAP.TRIG=TTLIN1.VAL
0 C 1 COUNTER1.OUT.CAPTURE=Value
0 C 1 PCAP.TS_TRIG.CAPTURE=Value
0 C 1 PCAP.ENABLE=ONE
0 C 1 *PCAP.ARM=
0 D 1 BARE
";

/// Adds what is set at tick 0.
#[tactic(auto, unfolding(crate::specs::Making::settings))]
fn add_settings(text: &mut Text) -> Result<(), OutOfMemory>
    ensures { OnOk result (text.new ≡ text.old ++ settings) }
{
    text.append(SETTINGS)
}

/// Adds the rows of a point at this tick.
fn add_point(text: &mut Text, tick: u64) -> Result<(), OutOfMemory>
    requires { tick < 2 ^ 62 }
    ensures { OnOk result (text.new ≡ text.old ++ point tick) }
{
    add_line(text, tick, b" S TTLIN1 1")?;
    add_line(text, tick + 1, b" S TTLIN1 0")?;
    Ok(())
}

/// Adds the end of the script at this tick.
fn add_ending(text: &mut Text, tick: u64) -> Result<(), OutOfMemory>
    ensures { OnOk result (text.new ≡ text.old ++ ending tick) }
{
    add_line(text, tick, b" C 1 *PCAP.DISARM=")?;
    add_line(text, tick, b" E")?;
    Ok(())
}

/// Adds a line at this tick.
fn add_line(text: &mut Text, tick: u64, rest: &[u8]) -> Result<(), OutOfMemory>
    ensures { OnOk result (text.new ≡ text.old ++ line_at tick rest.now) }
{
    text.append_number(tick)?;
    text.append(rest)?;
    text.append(b"\n")
}
