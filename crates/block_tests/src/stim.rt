use pb_stim::{Cause, StimFault, Stimulus};
use std::alloc::Global;

#[test]
fn last_row_of_a_target_counts(rt: HostRuntime) {
    let mut stimulus = Stimulus::new(rt.alloc());
    assert!(rt; stimulus.push(0, 0, 1).is_ok());
    assert!(rt; stimulus.push(5, 6, -3).is_ok());
    assert!(rt; stimulus.push(5, 6, 4).is_ok());
    assert!(rt; stimulus.push(9, 0, 0).is_ok());
    assert_eq!(rt; stimulus.len(), 4);
    assert_eq!(rt; stimulus.at(6, 4), 0);
    assert_eq!(rt; stimulus.at(6, 5), 4);
    assert_eq!(rt; stimulus.at(0, 8), 1);
    assert_eq!(rt; stimulus.at(0, 9), 0);
    assert_eq!(rt; stimulus.next_after(0), Some(5));
    assert_eq!(rt; stimulus.next_after(5), Some(9));
    assert_eq!(rt; stimulus.next_after(9), None);
    assert_eq!(rt; stimulus.row(1).2, -3);
}

/// The rows of these lines, as tick, target and value each, or where they break a rule.
fn parsed(alloc: Global, text: &[u8]) -> Result<Vec<(u64, u8, i32)>, StimFault> {
    let stimulus = Stimulus::parse(alloc, text)?;
    let mut rows = Vec::new(alloc);
    for i in 0..stimulus.len() {
        if rows.push(stimulus.row(i)).is_err() {
            return Err(StimFault::OutOfMemory);
        }
    }
    Ok(rows)
}

#[test]
fn stimulus_of_a_text(rt: HostRuntime) {
    let text = b"# two inputs\n10 S TTLIN1 1\n\n10 S INENC2 -7\n011 S TTLIN1 -0\n";
    let Ok(rows) = parsed(rt.alloc(), text) else {
        panic!(rt; "the text is a stimulus")
    };
    assert!(rt; rows.as_slice() == [(10, 0, 1), (10, 7, -7), (11, 0, 0)].as_slice());
}

#[test]
fn first_bad_line_is_told(rt: HostRuntime) {
    let table: [(&[u8], u64, Cause); 8] = [
        (b"0 S TTLIN1 1\n\n0 C 1\n", 3, Cause::Malformed),
        (b"0 E\n", 1, Cause::Malformed),
        (
            b"4611686018427387904 S TTLIN1 1\n",
            1,
            Cause::TickOutOfRange,
        ),
        (b"10 S TTLIN1 1\n9 S TTLIN1 0\n", 2, Cause::TickFalls),
        (b"0 S TTLIN7 1\n", 1, Cause::UnknownTarget),
        (b"0 S TTLIN1 2\n", 1, Cause::ValueOutOfRange),
        (b"0 S INENC1 2147483648\n", 1, Cause::ValueOutOfRange),
        (b"0 S TTLIN1 1\n#", 2, Cause::NoNewline),
    ];
    for (text, line, cause) in table {
        assert!(rt; parsed(rt.alloc(), text).err() == Some(StimFault::Line { line, cause }));
    }
}
