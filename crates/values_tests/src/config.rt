ghost use Rattle.pb_fields.specs.Slots.{IsSlot};

use crate::fields::slot_of;
use pb_config::{Config, field_slot, has_line};
use pb_fields::{Attribute, Catalog, Role, Slot, attribute, following, role};
use pb_model::Change;
use pb_words::Refusal;
use std::alloc::Global;
use std::process::Abort;
use std::test::Fail;

/// The settings at first. Where memory lacks once, they are asked for again.
fn fresh(alloc: Global) -> Result<Config, Fail> {
    if let Ok(config) = Config::new(alloc) {
        return Ok(config);
    }
    Ok(Config::new(alloc)?)
}

/// What is printed of the slot is the text, or the line of its refusal.
fn prints(rt: &impl Abort, config: &Config, slot: Slot, wanted: &str)
    requires { IsSlot slot }
{
    let mut out = [0; 128];
    assert!(rt; has_line(slot), "{wanted}");
    match config.show(slot, &mut out) {
        Ok(len) => {
            assert!(rt; len <= 128);
            assert_eq!(rt; &out[..len], wanted.as_bytes(), "at {slot:?}");
        }
        Err(refusal) => assert_eq!(rt; refusal.line(), wanted.as_bytes(), "at {slot:?}"),
    }
}

fn prints_scaled(rt: &impl Abort, config: &Config, slot: Slot, value: i32, wanted: &str)
    requires { IsSlot slot }
{
    let mut out = [0; 128];
    let Some(Attribute::Scaled) = attribute(slot) else {
        panic!(rt; "{slot:?}");
    };
    let len = config.show_scaled(slot, value, &mut out);
    assert!(rt; len <= 128);
    assert_eq!(rt; &out[..len], wanted.as_bytes(), "at {slot:?}");
}

#[test]
fn settings_take_values_and_print_them(rt: HostRuntime) -> Result<(), Fail> {
    let catalog = Catalog::new(rt.alloc())?;
    let mut config = fresh(rt.alloc())?;
    let slot = slot_of(&catalog, "LUT1.FUNC")?;
    let change = Change::Set { slot, raw: 0xff00 };
    assert_eq!(rt; config.assign(slot, b" ~A & B"), Ok(Some(change)));
    prints(&rt, &config, slot, "~A&B");
    let raw = slot_of(&catalog, "LUT1.FUNC.RAW")?;
    assert_eq!(rt; config.assign(raw, b"0x1"), Err(Refusal::NotWriteable));
    prints(&rt, &config, raw, "0x0000FF00");
    assert_eq!(rt; field_slot(raw), slot);
    prints(
        &rt,
        &config,
        slot_of(&catalog, "SRGATE1.FORCE_SET")?,
        "ERR Not readable\n",
    );
    let scale = slot_of(&catalog, "INENC1.VAL.SCALE")?;
    assert_eq!(rt; config.assign(scale, b"-.5"), Ok(None));
    prints_scaled(
        &rt,
        &config,
        slot_of(&catalog, "INENC1.VAL.SCALED")?,
        3,
        "-1.5",
    );
    Ok(())
}

/// Whether the slot prints a value and takes one. Then it takes what it prints, and prints it again.
fn takes_its_own(rt: &impl Abort, config: &mut Config, slot: Slot) -> bool
    requires { IsSlot slot }
{
    let mut out = [0; 128];
    if !has_line(slot) {
        return false;
    }
    let Ok(len) = config.show(slot, &mut out) else {
        return false;
    };
    assert!(rt; len <= 128);
    if config.assign(slot, &out[..len]).is_err() {
        return false;
    }
    let mut again = [0; 128];
    assert_eq!(rt; config.show(slot, &mut again), Ok(len), "at {slot:?}");
    assert_eq!(rt; &again[..len], &out[..len], "at {slot:?}");
    true
}

/// How many slots do.
fn count_of_taken(rt: &impl Abort, config: &mut Config) -> u32 {
    let mut count = 0u32;
    let mut next = following(None);
    for _ in 0..2000 {
        let Some(slot) = next else {
            break;
        };
        if takes_its_own(rt, config, slot) {
            count = count.saturating_add(1);
        }
        next = following(Some(slot));
    }
    assert_eq!(rt; next, None);
    count
}

#[test]
fn every_slot_takes_what_it_prints(rt: HostRuntime) -> Result<(), Fail> {
    let mut config = fresh(rt.alloc())?;
    assert_eq!(rt; count_of_taken(&rt, &mut config), 421);
    Ok(())
}

#[test]
fn each_accepted_assignment_counts(rt: HostRuntime) -> Result<(), Fail> {
    let catalog = Catalog::new(rt.alloc())?;
    let mut config = fresh(rt.alloc())?;
    let bit = slot_of(&catalog, "BITS.A")?;
    assert_eq!(rt; config.assigned_at(bit), 0);
    assert!(rt; config.assign(bit, b"1").is_ok());
    assert!(rt; config.assign(bit, b"1").is_ok());
    assert_eq!(rt; config.assigned_at(bit), 2);
    assert_eq!(rt; config.assign(bit, b"x"), Err(Refusal::MalformedValue));
    assert_eq!(rt; config.assigned_at(bit), 2);
    assert_eq!(rt; config.assignments(), 2);
    Ok(())
}

#[test]
fn assignments_count_for_the_slot_that_they_set(rt: HostRuntime) -> Result<(), Fail> {
    let catalog = Catalog::new(rt.alloc())?;
    let mut config = fresh(rt.alloc())?;
    let delay = slot_of(&catalog, "PULSE1.DELAY")?;
    let raw = slot_of(&catalog, "PULSE1.DELAY.RAW")?;
    let units = slot_of(&catalog, "PULSE1.DELAY.UNITS")?;
    let table = slot_of(&catalog, "SEQ1.TABLE")?;
    assert!(rt; config.assign(raw, b"5").is_ok());
    assert!(rt; config.assign(units, b"ms").is_ok());
    let Role::Table = role(table) else {
        panic!(rt; "{table:?}");
    };
    config.note(table);
    assert_eq!(rt; config.assigned_at(delay), 1);
    assert_eq!(rt; config.assigned_at(raw), 0);
    assert_eq!(rt; config.assigned_at(units), 2);
    assert_eq!(rt; config.assigned_at(table), 3);
    Ok(())
}
