ghost use Rattle.std.specs.Prelude.{IfOk};
ghost use Rattle.pb_fields.specs.Slots.{IsSlot};

use pb_fields::{
    Attribute, Catalog, FieldKind, FieldType, Role, Slot, at_entry, attribute, attribute_name,
    attributes, bit_raw, block_name, default_value, entry, field_count, field_name, field_type,
    following, instances, int_raw, is_assigned, kind, label_count, name, output_entry, role, show,
    spell, type_name,
};
use pb_names::{
    BLOCKS, ITSELF, bit_bus, counter, label_lists, lut, pcap, pos_out, position_bus, ttlin,
};
use pb_words::Refusal;
use std::test::Fail;

pub(crate) fn slot_of(catalog: &Catalog, target: &str) -> Result<Slot, Fail>
    ensures { IfOk result (λ slot. IsSlot slot) }
{
    let slot = catalog.find(target.as_bytes()).ok().ok_or("no such slot")?;
    Ok(slot)
}

#[test]
fn targets_name_slots(rt: HostRuntime) -> Result<(), Fail> {
    let catalog = Catalog::new(rt.alloc())?;
    let slot = slot_of(&catalog, "COUNTER8.OUT.SCALE")?;
    assert_eq!(rt; slot.block, counter::BLOCK);
    assert_eq!(rt; slot.instance, counter::INSTANCES);
    assert_eq!(rt; slot.field, counter::OUT);
    assert_eq!(rt; slot.attr, pos_out::SCALE);
    let mut out = [0; 64];
    let len = name(slot, &mut out);
    assert!(rt; len <= 64);
    assert_eq!(rt; &out[..len], b"COUNTER8.OUT.SCALE".as_slice());
    assert_eq!(rt;
        catalog.find(b"LUT9.OUT"),
        Err(Refusal::BlockNumberOutOfRange)
    );
    assert_eq!(rt; catalog.block(b"LUT"), Ok(lut::BLOCK));
    assert_eq!(rt;
        catalog.block(b"PCAP2"),
        Err(Refusal::BlockNumberOutOfRange)
    );
    Ok(())
}

#[test]
fn blocks_tell_of_themselves(rt: HostRuntime) {
    let mut out = [0; 64];
    let len = block_name(BLOCKS - 1, &mut out);
    assert!(rt; len <= 64);
    assert_eq!(rt; &out[..len], b"PCAP".as_slice());
    assert_eq!(rt; instances(ttlin::BLOCK), 6);
    assert_eq!(rt; field_count(lut::BLOCK), 7);
    assert_eq!(rt; label_count(label_lists::POSITION_CAPTURE), 7);
}

#[test]
fn slots_follow_each_other(rt: HostRuntime) -> Result<(), Fail> {
    let first = following(None);
    assert_eq!(rt;
        first,
        Some(Slot {
            block: ttlin::BLOCK,
            instance: 1,
            field: ttlin::VAL,
            attr: ITSELF
        })
    );
    let catalog = Catalog::new(rt.alloc())?;
    let last = slot_of(&catalog, "PCAP.ACTIVE.OFFSET")?;
    assert_eq!(rt; following(Some(last)), None);
    Ok(())
}

#[test]
fn a_field_tells_of_itself(rt: HostRuntime) -> Result<(), Fail> {
    let catalog = Catalog::new(rt.alloc())?;
    let slot = slot_of(&catalog, "PCAP.GATE")?;
    assert_eq!(rt; role(slot), Role::BitMux);
    assert_eq!(rt; kind(slot), FieldKind::BitMux);
    assert_eq!(rt; field_type(slot), FieldType::BitMux);
    assert_eq!(rt; type_name(FieldType::BitMux), b"bit_mux".as_slice());
    assert_eq!(rt; field_name(slot), b"GATE".as_slice());
    assert_eq!(rt; attribute(slot), None);
    assert_eq!(rt;
        attributes(FieldType::BitMux),
        [Attribute::Info, Attribute::Delay, Attribute::MaxDelay].as_slice()
    );
    assert_eq!(rt; default_value(slot), 129);
    Ok(())
}

#[test]
fn an_attribute_tells_of_itself(rt: HostRuntime) -> Result<(), Fail> {
    let catalog = Catalog::new(rt.alloc())?;
    let slot = slot_of(&catalog, "INENC1.VAL.SCALE")?;
    assert_eq!(rt; role(slot), Role::Attr);
    assert_eq!(rt; kind(slot), FieldKind::Decimal);
    assert_eq!(rt; attribute(slot), Some(Attribute::Scale));
    assert_eq!(rt; attribute_name(Attribute::Scale), b"SCALE".as_slice());
    assert!(rt; is_assigned(Attribute::Scale));
    assert!(rt; !is_assigned(Attribute::Scaled));
    assert_eq!(rt; default_value(slot), 1_000_000_000);
    Ok(())
}

#[test]
fn outputs_drive_entries(rt: HostRuntime) -> Result<(), Fail> {
    let catalog = Catalog::new(rt.alloc())?;
    let slot = slot_of(&catalog, "SEQ2.OUTA")?;
    assert_eq!(rt; entry(slot), Some(47));
    assert_eq!(rt; at_entry(47), Some(slot));
    assert_eq!(rt; at_entry(bit_bus::USED), None);
    let position = slot_of(&catalog, "COUNTER1.OUT.SCALED")?;
    assert_eq!(rt; entry(position), None);
    assert_eq!(rt; output_entry(position), position_bus::FIRST + 4);
    let input = slot_of(&catalog, "PCAP.GATE")?;
    assert_eq!(rt; input.field, pcap::GATE);
    assert_eq!(rt; entry(input), None);
    Ok(())
}

#[test]
fn texts_spell_values(rt: HostRuntime) {
    let seconds = FieldKind::Time {
        limit: 1000,
        units: 0,
    };
    assert_eq!(rt; spell(seconds, b"0.000000012"), Ok(2));
    assert_eq!(rt;
        spell(seconds, b"0.000008004"),
        Err(Refusal::ValueOutOfRange)
    );
    assert_eq!(rt; spell(FieldKind::Lut, b"~A"), Ok(0xffff));
    assert_eq!(rt;
        spell(FieldKind::PosMux, b"ONE"),
        Err(Refusal::UnknownLabel)
    );
}

#[test]
fn values_are_printed(rt: HostRuntime) {
    let mut out = [0; 64];
    let len = show(FieldKind::Int, int_raw(-7), &mut out);
    assert!(rt; len <= 64);
    assert_eq!(rt; &out[..len], b"-7".as_slice());
    let len = show(FieldKind::Bit, bit_raw(true), &mut out);
    assert!(rt; len <= 64);
    assert_eq!(rt; &out[..len], b"1".as_slice());
}
