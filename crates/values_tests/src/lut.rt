use pb_lut::parse;
use pb_words::Refusal;

#[test]
fn functions_are_read(rt: HostRuntime) {
    assert_eq!(rt; parse(b"~A"), Ok(0x0000_ffff));
    assert_eq!(rt; parse(b"0 x fF"), Ok(0xff));
    assert_eq!(rt; parse(b"A&"), Err(Refusal::MalformedValue));
}

#[test]
fn long_and_deep_texts_are_read_or_refused(rt: HostRuntime) {
    let mut spaced = [b' '; 129];
    spaced[0] = b'A';
    assert_eq!(rt; parse(&spaced[..128]), Ok(0xffff_0000));
    assert_eq!(rt; parse(&spaced), Err(Refusal::MalformedValue));
    let open = [b'('; 128];
    assert_eq!(rt; parse(&open), Err(Refusal::MalformedValue));
    let mut nested = [b')'; 127];
    nested[..63].copy_from_slice(&open[..63]);
    nested[63] = b'A';
    assert_eq!(rt; parse(&nested), Ok(0xffff_0000));
}
