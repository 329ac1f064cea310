use pb_tables::Rows;
use std::alloc::AllocError;
use std::test::Fail;

/// The number of the refusal, 0 where the body is written.
fn write(rows: &mut Rows, append: bool, base64: bool, body: &str) -> u8 {
    match rows.write(append, base64, body.as_bytes()) {
        Ok(()) => 0,
        Err(refusal) => refusal.number(),
    }
}

#[test]
fn numbers_and_base64_say_the_same_rows(rt: HostRuntime) -> Result<(), Fail> {
    let mut rows = Rows::new(rt.alloc())?;
    let mut same = Rows::new(rt.alloc())?;
    assert_eq!(rt;
        write(&mut rows, false, false, " 67108867 0  0 1\n1\n0 0 2 \n"),
        0
    );
    assert_eq!(rt;
        write(&mut same, false, true, "AwAABAAAAAAAAAAAAQ\nAAAA==\n"),
        0
    );
    assert_eq!(rt;
        write(&mut same, true, true, "AQAAAAAAAAAAAAAAAgAAAA==\n"),
        0
    );
    assert_eq!(rt; rows.len(), 8);
    assert_eq!(rt; same.len(), 8);
    for i in 0..8 {
        assert_eq!(rt; rows.word(i), same.word(i));
    }
    Ok(())
}

#[test]
fn a_row_is_told_part_by_part(rt: HostRuntime) -> Result<(), Fail> {
    let mut rows = Rows::new(rt.alloc())?;
    // 5 repeats, trigger 12, outputs A and F, then B, position -2
    assert_eq!(rt;
        write(
            &mut rows,
            false,
            false,
            "169607173 4294967294 7 4294967295\n"
        ),
        0
    );
    assert_eq!(rt; rows.len(), 4);
    let row = rows.row(0);
    assert_eq!(rt; row.repeats, 5);
    assert_eq!(rt; row.trigger, 12);
    assert_eq!(rt; row.out1, 33);
    assert_eq!(rt; row.out2, 2);
    assert_eq!(rt; row.position, -2);
    assert_eq!(rt; row.time1, 7);
    assert_eq!(rt; row.time2, 4_294_967_295);
    Ok(())
}

#[test]
fn the_first_reason_refuses_a_body(rt: HostRuntime) -> Result<(), Fail> {
    let mut rows = Rows::new(rt.alloc())?;
    assert_eq!(rt; write(&mut rows, false, false, "1 0 0 2\n"), 0);
    for (base64, body, number) in [
        (false, "4294967296 x\n", 10),
        (false, "-1 0 0 0\n", 10),
        (false, "1\t0 0 0\n", 10),
        (false, "4294967296 0 0\n", 11),
        (false, "851969 0 0\n", 14),
        (false, "851969 0 0 1\n", 11),
        (true, "AQ*A\n", 15),
        (true, "A QA\n", 15),
        (true, "AQAAAA\n", 15),
        (true, "AR==\n", 15),
        (true, "AQ==AQ==\n", 15),
        (true, "AQAA\n", 14),
        (true, "AQAAAA==\n", 14),
        (true, "AQANAAAAAAAAAAAAAQAAAA==\n", 11),
    ] {
        assert_eq!(rt; write(&mut rows, false, base64, body), number, "of {body}");
        assert_eq!(rt; write(&mut rows, true, base64, body), number, "of {body}");
        assert_eq!(rt; rows.len(), 4);
        assert_eq!(rt; rows.word(3), 2);
    }
    for base64 in [false, true] {
        assert_eq!(rt; write(&mut rows, true, base64, ""), 0);
        assert_eq!(rt; rows.len(), 4);
        assert_eq!(rt; write(&mut rows, false, base64, ""), 0);
        assert_eq!(rt; rows.len(), 0);
        assert_eq!(rt; write(&mut rows, false, false, "1 0 0 2\n"), 0);
    }
    Ok(())
}

/// So many lines of one row each.
fn lines(body: &mut String, rows: u32) -> Result<(), AllocError> {
    for _ in 0..rows {
        body.push_str("1 0 0 2\n")?;
    }
    Ok(())
}

#[test]
fn a_table_has_4096_rows_and_no_more(rt: HostRuntime) -> Result<(), Fail> {
    let mut rows = Rows::new(rt.alloc())?;
    let mut body = String::new(rt.alloc());
    lines(&mut body, 4096)?;
    assert_eq!(rt; write(&mut rows, false, false, body.as_str()), 0);
    assert_eq!(rt; rows.len(), 16_384);
    assert_eq!(rt; write(&mut rows, true, false, "1 0 0\n"), 14);
    assert_eq!(rt; write(&mut rows, true, false, "851969 0 0 1\n"), 13);
    assert_eq!(rt; write(&mut rows, true, false, "1 0 0 2\n"), 13);
    assert_eq!(rt;
        write(&mut rows, true, true, "AQAAAAAAAAAAAAAAAgAAAA==\n"),
        13
    );
    assert_eq!(rt; write(&mut rows, true, false, ""), 0);
    lines(&mut body, 1)?;
    assert_eq!(rt; write(&mut rows, false, false, body.as_str()), 13);
    assert_eq!(rt; rows.len(), 16_384);
    assert_eq!(rt; rows.word(16_383), 2);
    Ok(())
}
