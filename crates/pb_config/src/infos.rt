ghost use Rattle.std.specs.Prelude.{◌≡◌, ◌≤◌, length};
ghost use Rattle.pb_config.specs.Showing.{word_name};

/// The name of a word of the bit bus.
pub(crate) fn word_name(word: u8) -> &'static [u8]
    ensures text { result.now ≡ word_name word }
    ensures short { length result.now ≤ 64 }
{
    match word {
        0 => b"PCAP.BITS0",
        1 => b"PCAP.BITS1",
        2 => b"PCAP.BITS2",
        _ => b"PCAP.BITS3",
    }
}
