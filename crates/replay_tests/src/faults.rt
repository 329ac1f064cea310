use pb_replay::{ScriptFault, parse};
use pb_stim::Cause;
use std::alloc::Global;
use std::process::Abort;
use std::test::Fail;

/// The line and the cause of the first fault of these bytes, and none where they are a script.
fn fault_of(alloc: Global, text: &[u8]) -> Result<Option<(u64, Cause)>, ScriptFault> {
    match parse(alloc, text) {
        Ok(_) => Ok(None),
        Err(ScriptFault::Line { line, cause }) => Ok(Some((line, cause))),
        Err(ScriptFault::OutOfMemory) => Err(ScriptFault::OutOfMemory),
    }
}

pub(crate) fn is_refused(
    rt: &impl Abort,
    alloc: Global,
    text: &[u8],
    line: u64,
    cause: Cause,
) -> Result<(), ScriptFault> {
    match fault_of(alloc, text)? {
        Some(found) => {
            assert!(rt; found.0 == line);
            assert!(rt; found.1 == cause);
        }
        None => assert!(rt; false),
    }
    Ok(())
}

pub(crate) fn is_script(rt: &impl Abort, alloc: Global, text: &[u8]) -> Result<(), ScriptFault> {
    let found = fault_of(alloc, text)?;
    assert!(rt; found.is_none());
    Ok(())
}

#[test]
fn every_form_is_read(rt: HostRuntime) -> Result<(), Fail> {
    let alloc = rt.alloc();
    is_script(&rt, alloc, b"0 E\n")?;
    is_script(
        &rt,
        alloc,
        b"# rows\n\n007 S TTLIN6 -0\n7 S INENC4 -2147483648\n7 C 1 LUT1.OUT?\n7 C 08\n8 C 2 \n8 X 2\n9 D 1 ASCII UNSCALED\n9 D 8\n9 R 8\n9 Y 1\n4611686018427387903 E\n\n# last\n",
    )?;
    Ok(())
}

#[test]
fn each_rule_is_told(rt: HostRuntime) -> Result<(), Fail> {
    let alloc = rt.alloc();
    is_refused(&rt, alloc, b"0 C 1 x\n0 E", 2, Cause::NoNewline)?;
    is_refused(&rt, alloc, b"0 E\n\n0 E\n", 3, Cause::AfterTheEnd)?;
    is_refused(&rt, alloc, b"0 E 1\n", 1, Cause::Malformed)?;
    is_refused(
        &rt,
        alloc,
        b"4611686018427387904 E\n",
        1,
        Cause::TickOutOfRange,
    )?;
    is_refused(&rt, alloc, b"10 C 1 *IDN?\n9 E\n", 2, Cause::TickFalls)?;
    is_refused(&rt, alloc, b"0 S TTLIN7 1\n", 1, Cause::UnknownTarget)?;
    is_refused(&rt, alloc, b"0 R 9\n", 1, Cause::SessionOutOfRange)?;
    is_refused(
        &rt,
        alloc,
        b"0 S INENC1 2147483648\n",
        1,
        Cause::ValueOutOfRange,
    )?;
    is_refused(&rt, alloc, b"", 1, Cause::NoEndLine)?;
    is_refused(&rt, alloc, b"# c\n", 2, Cause::NoEndLine)?;
    Ok(())
}

#[test]
fn numbers_of_any_length_are_numbers(rt: HostRuntime) -> Result<(), Fail> {
    let alloc = rt.alloc();
    is_refused(
        &rt,
        alloc,
        b"99999999999999999999999999999999 E\n",
        1,
        Cause::TickOutOfRange,
    )?;
    is_refused(
        &rt,
        alloc,
        b"0 C 99999999999999999999999 x\n",
        1,
        Cause::SessionOutOfRange,
    )?;
    is_refused(&rt, alloc, b"0 X 0\n", 1, Cause::SessionOutOfRange)?;
    is_refused(
        &rt,
        alloc,
        b"0 S INENC1 -99999999999999999999999\n",
        1,
        Cause::ValueOutOfRange,
    )?;
    is_refused(&rt, alloc, b"0 S TTLIN1 -1\n", 1, Cause::ValueOutOfRange)?;
    is_refused(&rt, alloc, b"0 S TTLIN1.VAL 1\n", 1, Cause::UnknownTarget)?;
    Ok(())
}

#[test]
fn of_two_rules_the_first_is_told(rt: HostRuntime) -> Result<(), Fail> {
    let alloc = rt.alloc();
    is_refused(&rt, alloc, b"0 E\nx", 2, Cause::NoNewline)?;
    is_refused(&rt, alloc, b"0 E\n#", 2, Cause::NoNewline)?;
    is_refused(&rt, alloc, b"0 E\nnonsense\n", 2, Cause::AfterTheEnd)?;
    is_refused(&rt, alloc, b"4611686018427387904 Q\n", 1, Cause::Malformed)?;
    is_refused(&rt, alloc, b"0 S FOO x\n", 1, Cause::Malformed)?;
    is_refused(
        &rt,
        alloc,
        b"4611686018427387904 S FOO 7\n",
        1,
        Cause::TickOutOfRange,
    )?;
    is_refused(&rt, alloc, b"5 C 1 x\n4 S FOO 7\n", 2, Cause::TickFalls)?;
    is_refused(&rt, alloc, b"5 C 1 x\n4 C 9 x\n", 2, Cause::TickFalls)?;
    is_refused(
        &rt,
        alloc,
        b"0 S INENC5 99999999999\n",
        1,
        Cause::UnknownTarget,
    )?;
    is_refused(&rt, alloc, b"0 C 1 x\n0 Q\n0 Z\n", 2, Cause::Malformed)?;
    Ok(())
}

#[test]
fn forms_that_are_none(rt: HostRuntime) -> Result<(), Fail> {
    let alloc = rt.alloc();
    for text in [
        b"E\n".as_slice(),
        b"0\n",
        b"0 \n",
        b" 0 E\n",
        b"0  E\n",
        b"0 E \n",
        b"0 e\n",
        b"-1 E\n",
        b"0 E\r\n",
        b"0 S TTLIN1\n",
        b"0 S TTLIN1 \n",
        b"0 S  1\n",
        b"0 S TTLIN1 1 1\n",
        b"0 S INENC1 +1\n",
        b"0 S INENC1 --1\n",
        b"0 S INENC1 -\n",
        b"0 C\n",
        b"0 C \n",
        b"0 C x\n",
        b"0 C  x\n",
        b"0 R\n",
        b"0 R 1 x\n",
        b"0 R 1 \n",
        b"0 X\n",
        b"0 Y 1 2\n",
        b"0 D -1\n",
        b"0 Q 1\n",
    ] {
        is_refused(&rt, alloc, text, 1, Cause::Malformed)?;
    }
    Ok(())
}

#[test]
fn causes_are_printed(rt: HostRuntime) -> Result<(), Fail> {
    let alloc = rt.alloc();
    for (cause, text) in [
        (Cause::TooLarge, "line 7: too large"),
        (Cause::NoNewline, "line 7: no newline"),
        (Cause::AfterTheEnd, "line 7: after the end"),
        (Cause::Malformed, "line 7: malformed"),
        (Cause::TickOutOfRange, "line 7: tick out of range"),
        (Cause::TickFalls, "line 7: tick falls"),
        (Cause::UnknownTarget, "line 7: unknown target"),
        (Cause::SessionOutOfRange, "line 7: session out of range"),
        (Cause::ValueOutOfRange, "line 7: value out of range"),
        (Cause::NoEndLine, "line 7: no end line"),
    ] {
        let fault = ScriptFault::Line { line: 7, cause };
        let told = format!(in alloc; "{fault}")?;
        assert!(rt; told.as_str() == text);
    }
    let told = format!(in alloc; "{}", ScriptFault::OutOfMemory)?;
    assert!(rt; told.as_str() == "out of memory");
    Ok(())
}
