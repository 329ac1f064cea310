ghost use Rattle.std.specs.Prelude.{◌≡◌, ◌++◌, map, take, codes, IfOk, OnOk};
ghost use Rattle.pb_acquire.specs.Acquisitions.{AllAcquisitions};
ghost use Rattle.pb_acquire.specs.Kept as acquire;
ghost use Rattle.pb_pcap.specs.Fields.{IsField};
ghost use Rattle.pb_replies.specs.Replies.{listed};
ghost use Rattle.pb_core.specs.Captures as definition;
ghost use Rattle.pb_core.specs.Sessions.{is_reading};

use pb_acquire::Acquisitions;
use pb_buses::Condition;
use pb_config::{Config, output};
use pb_fields::name;
use pb_pcap::{Choice, Field};
use pb_replies::{end_list, list_pair, number_reply, value_reply};
use pb_words::{OutOfMemory, Text};
use std::alloc::Global;

/// What is captured, each field with its choice.
pub(crate) fn captures_reply(alloc: Global, config: &Config) -> Result<Text, OutOfMemory>
    ensures { IfOk result (λ text. text ≡ definition.captures_reply config.now.settings) }
{
    let layout = config.layout();
    let mut text = Text::new(alloc);
    for i in 0..layout.len() {
        list_capture(&mut text, layout.field(i))?;
    }
    end_list(&mut text)?;
    Ok(text)
}

/// Adds the line of a captured field.
fn list_capture(text: &mut Text, field: Field) -> Result<(), OutOfMemory>
    requires { IsField field }
    ensures { OnOk result (text.new ≡ text.old ++ listed (definition.capture_line field)) }
{
    let mut target = [0; 64];
    let len = name(output(field.entry), &mut target);
    list_pair(text, &target[..len], choice_text(field.choice))
}

fn choice_text(choice: Choice) -> &'static [u8]
    ensures { result.now ≡ definition.choice_text choice }
{
    match choice {
        Choice::No => b"No",
        Choice::Value => b"Value",
        Choice::Min => b"Min",
        Choice::Max => b"Max",
        Choice::Sum => b"Sum",
        Choice::MinMax => b"Min Max",
        Choice::MinMaxSum => b"Min Max Sum",
    }
}

/// Whether an acquisition is armed or running, how many readers are open, and how many of those still read one that
/// was armed.
pub(crate) fn status_reply(alloc: Global, acquisitions: &Acquisitions) -> Result<Text, OutOfMemory>
    ensures { (all : AllAcquisitions) → acquire.Agrees acquisitions.now all → IfOk result (λ text. text ≡ definition.status_reply all) }
{
    let mut text = Text::new(alloc);
    text.append(b"OK =")?;
    text.append(busy_text(acquisitions.is_running()))?;
    text.append_number(open_count(acquisitions))?;
    text.append(b" ")?;
    text.append_number(active_count(acquisitions))?;
    text.append(b"\n")?;
    Ok(text)
}

fn busy_text(is_running: bool) -> &'static [u8]
    ensures { result.now ≡ definition.busy_text is_running }
{
    if is_running { b"Busy " } else { b"Idle " }
}

/// How many readers are open.
fn open_count(acquisitions: &Acquisitions) -> u64
    ensures { (all : AllAcquisitions) → acquire.Agrees acquisitions.now all → result ≡ definition.so_many (is_reading all) }
{
    let mut count = 0u64;
    for id in 1..9u32 {
        if !acquisitions.is_open(id) {
            continue;
        }
        count += 1;
    }
    count
}

/// How many of them have an acquisition that was armed and whose end they didn't take.
fn active_count(acquisitions: &Acquisitions) -> u64
    ensures { (all : AllAcquisitions) → acquire.Agrees acquisitions.now all → result ≡ definition.so_many (definition.is_busy_reading all) }
{
    let mut count = 0u64;
    for id in 1..9u32 {
        if !acquisitions.is_active(id) {
            continue;
        }
        count += 1;
    }
    count
}

/// How many records the latest acquisition has.
pub(crate) fn captured_reply(
    alloc: Global,
    acquisitions: &Acquisitions,
) -> Result<Text, OutOfMemory>
    ensures { (all : AllAcquisitions) → acquire.Agrees acquisitions.now all → IfOk result (λ text. text ≡ definition.captured_reply all) }
{
    number_reply(alloc, acquisitions.captured())
}

/// How the latest acquisition ended.
pub(crate) fn completion_reply(
    alloc: Global,
    acquisitions: &Acquisitions,
) -> Result<Text, OutOfMemory>
    ensures { (all : AllAcquisitions) → acquire.Agrees acquisitions.now all → IfOk result (λ text. text ≡ definition.completion_reply all) }
{
    if acquisitions.is_running() {
        value_reply(alloc, b"Busy")
    } else {
        match acquisitions.condition() {
            Some(condition) => value_reply(alloc, condition_text(condition)),
            None => value_reply(alloc, b"Idle"),
        }
    }
}

fn condition_text(condition: Condition) -> &'static [u8]
    ensures { result.now ≡ definition.condition_text condition }
{
    match condition {
        Condition::Ok => b"Ok",
        Condition::Disarmed => b"Disarmed",
        Condition::Overrun => b"Data overrun",
    }
}
