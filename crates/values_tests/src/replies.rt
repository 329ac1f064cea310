use crate::fields::slot_of;
use pb_fields::Catalog;
use pb_names::ttlin;
use pb_replies::{
    attributes_reply, base64_reply, blocks_reply, fields_reply, has_labels, labels_reply,
    number_reply, positions_reply, row_reply, table_reply, value_reply, word_reply,
};
use pb_tables::Rows;
use std::test::Fail;

#[test]
fn a_value_is_a_line(rt: HostRuntime) -> Result<(), Fail> {
    assert_eq!(rt;
        value_reply(rt.alloc(), b"ZERO")?.bytes(),
        b"OK =ZERO\n".as_slice()
    );
    assert_eq!(rt;
        number_reply(rt.alloc(), 16384)?.bytes(),
        b"OK =16384\n".as_slice()
    );
    Ok(())
}

#[test]
fn a_table_is_a_line_for_each_word_or_base64(rt: HostRuntime) -> Result<(), Fail> {
    let mut rows = Rows::new(rt.alloc())?;
    assert_eq!(rt; table_reply(rt.alloc(), &rows)?.bytes(), b".\n".as_slice());
    assert_eq!(rt; base64_reply(rt.alloc(), &rows)?.bytes(), b".\n".as_slice());
    assert!(rt; rows.write(false, false, b"1 0 0 2\n").is_ok());
    assert_eq!(rt;
        table_reply(rt.alloc(), &rows)?.bytes(),
        b"!1\n!0\n!0\n!2\n.\n".as_slice()
    );
    assert_eq!(rt;
        base64_reply(rt.alloc(), &rows)?.bytes(),
        b"!AQAAAAAAAAAAAAAAAgAAAA==\n.\n".as_slice()
    );
    Ok(())
}

#[test]
fn names_are_a_line_each(rt: HostRuntime) -> Result<(), Fail> {
    let catalog = Catalog::new(rt.alloc())?;
    let slot = slot_of(&catalog, "SRGATE1.SET_EDGE")?;
    assert_eq!(rt;
        attributes_reply(rt.alloc(), slot)?.bytes(),
        b"!INFO\n!LABELS\n.\n".as_slice()
    );
    assert!(&rt; has_labels(slot));
    assert_eq!(rt;
        labels_reply(rt.alloc(), slot)?.bytes(),
        b"!Rising\n!Falling\n!Either\n.\n".as_slice()
    );
    assert_eq!(rt;
        fields_reply(rt.alloc(), ttlin::BLOCK)?.bytes(),
        b"!VAL 0 bit_out\n.\n".as_slice()
    );
    Ok(())
}

#[test]
fn long_lists_begin_with_their_first_line(rt: HostRuntime) -> Result<(), Fail> {
    assert!(rt;
        blocks_reply(rt.alloc())?
            .bytes()
            .starts_with(b"!TTLIN 6\n!INENC 4\n")
    );
    assert!(rt;
        positions_reply(rt.alloc())?
            .bytes()
            .starts_with(b"!INENC1.VAL\n")
    );
    assert!(rt;
        word_reply(rt.alloc(), 1)?
            .bytes()
            .starts_with(b"!COUNTER3.CARRY\n")
    );
    assert!(rt;
        row_reply(rt.alloc())?
            .bytes()
            .starts_with(b"!15:0 REPEATS\n")
    );
    Ok(())
}
