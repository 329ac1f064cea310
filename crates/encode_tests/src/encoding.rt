use crate::{counter, scan};
use pb_buses::Condition;
use pb_encode::{Form, Options, end, header, piece};
use pb_words::{OutOfMemory, Refusal, Text};
use std::process::Abort;

/// What was made is this, unless memory lacks.
fn gives(rt: &impl Abort, made: Result<Text, OutOfMemory>, wanted: &[u8]) {
    match made {
        Ok(text) => assert_eq!(rt; text.bytes(), wanted),
        Err(_) => panic!(rt; "out of memory"),
    }
}

const PLAIN: Options = Options {
    form: Form::Ascii,
    scaled: false,
    header: true,
    status: true,
    one_shot: false,
};

#[test]
fn options_are_read_in_their_order(rt: HostRuntime) {
    assert_eq!(rt; Options::parse(b" ASCII  UNSCALED "), Ok(PLAIN));
    assert_eq!(rt;
        Options::parse(b"FRAMED SCALED"),
        Err(Refusal::ScaledNeedsAscii)
    );
    assert_eq!(rt; Options::parse(b"XML"), Err(Refusal::UnknownOption));
    assert_eq!(rt; Options::parse(b"XML\t"), Err(Refusal::NotPrintable));
    assert_eq!(rt; Options::parse(&[b' '; 4096]), Options::parse(b""));
    assert_eq!(rt; Options::parse(&[b'\t'; 4097]), Err(Refusal::LineTooLong));
}

#[test]
fn counter_is_handed_out_in_four_forms(rt: HostRuntime) {
    let layout = counter();
    let raw = [0, 0, 0, 0, 1, 0, 0, 0, 2, 0, 0, 0];
    gives(
        &rt,
        header(rt.alloc(), &PLAIN, &layout),
        b"missed: 0\nprocess: Unscaled\nformat: ASCII\nfields:\n COUNTER1.OUT int32 Value\n\n",
    );
    gives(
        &rt,
        piece(rt.alloc(), &PLAIN, &layout, &raw),
        b" 0\n 1\n 2\n",
    );
    let base64 = Options {
        form: Form::Base64,
        ..PLAIN
    };
    gives(
        &rt,
        piece(rt.alloc(), &base64, &layout, &raw),
        b" AAAAAAEAAAACAAAA\n",
    );
    let framed = Options {
        form: Form::Framed,
        ..PLAIN
    };
    gives(
        &rt,
        piece(rt.alloc(), &framed, &layout, &raw[8..]),
        b"BIN \x0c\0\0\0\x02\0\0\0",
    );
    gives(
        &rt,
        end(rt.alloc(), &framed, 3, Condition::Ok),
        b"END 3 Ok\n",
    );
    let quiet = Options {
        status: false,
        ..framed
    };
    gives(&rt, end(rt.alloc(), &quiet, 3, Condition::Overrun), b"");
}

#[test]
fn scan_is_handed_out_in_millimetres(rt: HostRuntime) {
    let layout = scan();
    let scaled = Options {
        scaled: true,
        ..PLAIN
    };
    let first_and_last = [
        0, 0, 0, 0, 10, 0, 0, 0, 0xa8, 0x11, 0, 0, 0, 0, 0, 0, 0, 0, 0, 0, //
        78, 27, 0, 0, 88, 27, 0, 0, 88, 186, 106, 0, 0, 0, 0, 0, 187, 2, 0, 0,
    ];
    gives(
        &rt,
        piece(rt.alloc(), &scaled, &layout, &first_and_last),
        b" 0 0.01 4.52 0\n 6.99 7 6994.52 699\n",
    );
    let least = [
        0, 0, 0, 0x80, 0xff, 0xff, 0xff, 0x7f, 0, 0, 0, 0, 0, 0, 0, 0x80, 0xff, 0xff, 0xff, 0xff,
    ];
    gives(
        &rt,
        piece(rt.alloc(), &scaled, &layout, &least),
        b" -2147483.648 2147483.647 -9223372036854775.808 -1\n",
    );
}
