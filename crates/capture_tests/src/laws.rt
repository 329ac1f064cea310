ghost use Rattle.std.specs.Prelude.{◌≡◌, ◌-◌, ◌^◌, pos, negsuc};
ghost use Rattle.pb_pcap.specs.Each.{added};

/// A sum wraps at the ends of 64 bits: a position of 1 behind the greatest sum, and of -1 behind the least.
pub fn sums_wrap()
    ensures up { added (pos (2 ^ 63 - 1)) (pos 1) ≡ negsuc (2 ^ 63 - 1) }
    ensures down { added (negsuc (2 ^ 63 - 1)) (negsuc 0) ≡ pos (2 ^ 63 - 1) }
{}
