//! Tests of pb_encode: each public call once, and numbers at the ends of their ranges.
#![tactic(auto)]

ghost use Rattle.std.specs.Prelude.{◌≡◌, ◌<◌, [], ◌∷◌, ◌++◌, All};
ghost use Rattle.pb_encode.specs.Examples as examples;

#[cfg(test)]
mod encoding;

use pb_pcap::{Choice, Layout, Units};
use pb_words::Decimal9;

/// COUNTER1.OUT as it is.
pub fn counter() -> Layout
    ensures { result ≡ examples.counter ∷ [] }
{
    let mut layout = Layout::empty();
    add_counter(&mut layout);
    layout
}

/// INENC1.VAL in millimetres, a count being a micrometre, and COUNTER1.OUT.
pub fn scan() -> Layout
    ensures { result ≡ examples.encoder ∷ examples.counter ∷ [] }
{
    let mut layout = Layout::empty();
    add_encoder(&mut layout);
    add_counter(&mut layout);
    layout
}

fn add_counter(layout: &mut Layout)
    requires { All (λ field. field.entry < 4) layout.old }
    ensures { layout.new ≡ layout.old ++ examples.counter ∷ [] }
{
    let scale = Decimal9 {
        billionths: 1_000_000_000,
    };
    let offset = Decimal9 { billionths: 0 };
    layout.add(4, Choice::Value, scale, offset, Units::new(b""));
}

fn add_encoder(layout: &mut Layout)
    requires { layout.old ≡ [] }
    ensures { layout.new ≡ examples.encoder ∷ [] }
{
    let scale = Decimal9 {
        billionths: 1_000_000,
    };
    let offset = Decimal9 { billionths: 0 };
    layout.add(0, Choice::MinMaxSum, scale, offset, Units::new(b"mm"));
}
