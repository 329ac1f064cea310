ghost use Rattle.std.specs.Prelude.{◌≡◌, ◌+◌, ◌<◌};

use pb_words::{
    Decimal9, Line, NumFault, OutOfMemory, Refusal, Steps, Text, cut_digits, read_decimal,
    read_decimal_up_to, read_i32, read_tick, read_u32, read_u48, read_uint, take_out_spaces,
    write_decimal, write_hex32, write_i64, write_u64,
};
use std::marker::Brand;
use std::sync::ledger::{Blank, Ledger};
use std::test::Fail;

#[test]
fn a_text_grows_and_is_made_empty(rt: HostRuntime) -> Result<(), Fail> {
    let mut text = Text::new(rt.alloc());
    text.append(b"tick ")?;
    text.append_number(18_446_744_073_709_551_615)?;
    assert_eq!(rt; text.bytes(), b"tick 18446744073709551615".as_slice());
    text.clear();
    text.append(b"OK\n")?;
    assert_eq!(rt; text.bytes(), b"OK\n".as_slice());
    Ok(())
}

#[test]
fn numbers_are_read_up_to_their_limit(rt: HostRuntime) {
    assert_eq!(rt; read_u32(b"4294967295"), Ok(4_294_967_295));
    assert_eq!(rt; read_u48(b"281474976710656"), Err(NumFault::TooLarge));
    assert_eq!(rt;
        read_tick(b"00004611686018427387903"),
        Ok(4_611_686_018_427_387_903)
    );
    assert_eq!(rt; read_uint(b"7", 7), Ok(7));
    assert_eq!(rt; read_uint(b"8", 7), Err(NumFault::TooLarge));
    assert_eq!(rt; read_i32(b"-2147483648"), Ok(-2_147_483_648));
    assert_eq!(rt; read_i32(b"+-5"), Err(NumFault::Malformed));
}

#[test]
fn decimals_are_read_in_billionths(rt: HostRuntime) {
    assert_eq!(rt;
        read_decimal(b"-0.000000004"),
        Ok(Decimal9 { billionths: -4 })
    );
    assert_eq!(rt; read_decimal(b"0.0000000001"), Err(NumFault::Malformed));
    assert_eq!(rt;
        read_decimal_up_to(1, b"+7.5"),
        Ok(Decimal9 {
            billionths: 7_500_000_000
        })
    );
    assert_eq!(rt; read_decimal_up_to(1, b"10"), Err(NumFault::TooLarge));
}

fn begins(out: &[u8], n: usize, text: &[u8]) -> bool {
    out.get(..n) == Some(text) && out.get(n) == Some(&b'#')
}

#[test]
fn numbers_are_written_at_the_front(rt: HostRuntime) {
    let mut out = [b'#'; 48];
    let n = write_u64(42, &mut out);
    assert!(rt; begins(&out, n, b"42"));
    let n = write_i64(-9_223_372_036_854_775_808, &mut out);
    assert!(rt; begins(&out, n, b"-9223372036854775808"));
}

#[test]
fn other_numbers_are_written_at_the_front(rt: HostRuntime) {
    let mut out = [b'#'; 48];
    let n = write_hex32(0x89ab_cdef, &mut out);
    assert!(rt; begins(&out, n, b"0x89ABCDEF"));
    let n = write_decimal(
        Decimal9 {
            billionths: i128::MIN,
        },
        &mut out,
    );
    assert!(rt; begins(&out, n, b"-170141183460469231731687303715.884105728"));
}

#[test]
fn texts_are_cut_and_put_together(rt: HostRuntime) {
    assert_eq!(rt; cut_digits(b"12 C").1, b" C".as_slice());
    let mut out = [b'#'; 8];
    let n = take_out_spaces(b" ~A & B ", &mut out);
    assert!(rt; begins(&out, n, b"~A&B"));
    let mut line = Line::new();
    line.append(b"LUT");
    line.push(b'1');
    let n = line.put(&mut out);
    assert!(rt; out.get(..n) == Some(b"LUT1".as_slice()));
}

#[test]
fn refusals_have_a_number_and_a_line(rt: HostRuntime) {
    assert_eq!(rt; Refusal::ScaledNeedsAscii.number(), 22);
    assert_eq!(rt; Refusal::NotArmed.line(), b"ERR Not armed\n".as_slice());
}

#[test]
fn want_of_memory_is_printed(rt: HostRuntime) -> Result<(), Fail> {
    let printed = format!(in rt.alloc(); "{}", OutOfMemory)?;
    assert_eq!(rt; printed.as_str(), "out of memory");
    Ok(())
}

fn two_steps<L: Ledger>(steps: &mut Steps<L>)
    ensures { steps.new ≡ steps.old + 2 }
{
    steps.tick();
    steps.tick();
}

fn bytes_of_a_counter<L: Ledger>(blank: Blank) -> usize
    requires name { blank.name ≡ L.name }
    requires parts { blank.parts ≡ L.parts }
    requires some { 0 < blank.parts }
{
    let mut steps: Steps<L> = Steps::new(blank);
    two_steps(&mut steps);
    size_of::<Steps<L>>()
}

#[test]
fn a_counter_takes_no_bytes(rt: HostRuntime) {
    assert_eq!(rt; bytes_of_a_counter::<Brand>(Blank::new(1)), 0);
}
