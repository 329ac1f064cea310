use crate::faults::{is_refused, is_script};
use pb_replay::ScriptFault;
use pb_stim::Cause;
use pb_words::{OutOfMemory, Text};
use std::alloc::Global;
use std::process::Abort;
use std::test::Fail;

/// Comments of two bytes, one below the other, and then these bytes.
fn behind_comments(alloc: Global, comments: u32, last: &[u8]) -> Result<Text, OutOfMemory> {
    let mut text = Text::new(alloc);
    for _ in 0..comments {
        text.append(b"#\n")?;
    }
    text.append(last)?;
    Ok(text)
}

fn is_script_behind(
    rt: &impl Abort,
    alloc: Global,
    comments: u32,
    last: &[u8],
) -> Result<(), ScriptFault> {
    let text = behind_comments(alloc, comments, last)?;
    is_script(rt, alloc, text.bytes())
}

fn is_refused_behind(
    rt: &impl Abort,
    alloc: Global,
    comments: u32,
    last: &[u8],
    line: u64,
    cause: Cause,
) -> Result<(), ScriptFault> {
    let text = behind_comments(alloc, comments, last)?;
    is_refused(rt, alloc, text.bytes(), line, cause)
}

/// 8,388,606 comments have 16,777,212 bytes, so that four are left of 16 MiB.
#[test]
fn a_script_has_at_most_16_mib(rt: HostRuntime) -> Result<(), Fail> {
    let alloc = rt.alloc();
    is_script_behind(&rt, alloc, 8_388_606, b"0 E\n")?;
    is_refused_behind(&rt, alloc, 8_388_606, b"00 E\n", 8_388_607, Cause::TooLarge)?;
    is_refused_behind(
        &rt,
        alloc,
        8_388_606,
        b"0 E\n\n",
        8_388_608,
        Cause::TooLarge,
    )?;
    is_refused_behind(&rt, alloc, 8_388_606, b"00 E", 8_388_607, Cause::NoNewline)?;
    is_refused_behind(&rt, alloc, 8_388_606, b"000 E", 8_388_607, Cause::TooLarge)?;
    Ok(())
}
