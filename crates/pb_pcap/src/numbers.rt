ghost use Rattle.std.specs.Prelude.{◌≡◌, ◌+◌, ◌≤◌, ◌<◌, ◌++◌, length, vec_len};
ghost use Rattle.std.specs.Vec.{vec_capacity};
ghost use Rattle.byteorder.specs.Endian.{little_bytes};
ghost use Rattle.pb_pcap.specs.Records.{int32, int64};

use byteorder::{ByteOrder, LittleEndian};

/// Adds bytes for which there is room.
fn put(bytes: &mut Vec<u8>, more: &[u8])
    requires { vec_len bytes.old + length more.now ≤ vec_capacity bytes.old }
    ensures items { bytes.new.items ≡ bytes.old.items ++ more.now }
    ensures len { vec_len bytes.new ≡ vec_len bytes.old + length more.now }
    ensures capacity { vec_capacity bytes.old ≤ vec_capacity bytes.new }
{
    match bytes.extend_from_slice(more) {
        Ok(()) => {}
        Err(_) => unreachable!(),
    }
}

pub(crate) fn put_u32(bytes: &mut Vec<u8>, number: u32)
    requires { vec_len bytes.old + 4 ≤ vec_capacity bytes.old }
    ensures items { bytes.new.items ≡ bytes.old.items ++ little_bytes 4 number }
    ensures len { vec_len bytes.new ≡ vec_len bytes.old + 4 }
    ensures capacity { vec_capacity bytes.old ≤ vec_capacity bytes.new }
{
    let mut little = [0; 4];
    LittleEndian::write_u32(&mut little, number);
    put(bytes, &little);
}

pub(crate) fn put_u64(bytes: &mut Vec<u8>, number: u64)
    requires { vec_len bytes.old + 8 ≤ vec_capacity bytes.old }
    ensures items { bytes.new.items ≡ bytes.old.items ++ little_bytes 8 number }
    ensures len { vec_len bytes.new ≡ vec_len bytes.old + 8 }
    ensures capacity { vec_capacity bytes.old ≤ vec_capacity bytes.new }
{
    let mut little = [0; 8];
    LittleEndian::write_u64(&mut little, number);
    put(bytes, &little);
}

#[tactic(auto, unfolding(crate::specs::Records::int32))]
pub(crate) fn put_i32(bytes: &mut Vec<u8>, number: i32)
    requires { vec_len bytes.old + 4 ≤ vec_capacity bytes.old }
    ensures items { bytes.new.items ≡ bytes.old.items ++ int32 number }
    ensures len { vec_len bytes.new ≡ vec_len bytes.old + 4 }
    ensures capacity { vec_capacity bytes.old ≤ vec_capacity bytes.new }
{
    put_u32(bytes, number.cast_unsigned());
}

#[tactic(auto, unfolding(crate::specs::Records::int64))]
pub(crate) fn put_i64(bytes: &mut Vec<u8>, number: i64)
    requires { vec_len bytes.old + 8 ≤ vec_capacity bytes.old }
    ensures items { bytes.new.items ≡ bytes.old.items ++ int64 number }
    ensures len { vec_len bytes.new ≡ vec_len bytes.old + 8 }
    ensures capacity { vec_capacity bytes.old ≤ vec_capacity bytes.new }
{
    put_u64(bytes, number.cast_unsigned());
}
