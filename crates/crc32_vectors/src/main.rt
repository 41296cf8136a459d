// Published vectors of CRC-32, run through the proved checksum, a line for each: the check value of the catalogue of CRCs,
// the examples of AUTOSAR's CRC library, and the test messages of RFC 1321 and RFC 3720 and the pangram, with the sums that
// zlib gives. Floor 3: it stands on crc32.
#![tactic(auto)]

ghost use Rattle.std.specs.Prelude.{◌≡◌};
ghost use Rattle.format.specs.Crc32.{crc32};

// The examples of AUTOSAR's CRC library, for the CRC-32 of Ethernet.
const AUTOSAR: [&[u8]; 7] = [
    &[0x00, 0x00, 0x00, 0x00],
    &[0xF2, 0x01, 0x83],
    &[0x0F, 0xAA, 0x00, 0x55],
    &[0x00, 0xFF, 0x55, 0x11],
    &[0x33, 0x22, 0x55, 0xAA, 0xBB, 0xCC, 0xDD, 0xEE, 0xFF],
    &[0x92, 0x6B, 0x55],
    &[0xFF, 0xFF, 0xFF, 0xFF],
];

// Up to 39 bytes, which are taken eight and one at a time.
const SHORT: [&[u8]; 10] = [
    b"",
    b"a",
    b"abc",
    b"123456789",
    b"message digest",
    b"abcdefghijklmnopqrstuvwxyz",
    &[0; 32],
    &[0xFF; 32],
    b"\x00\x01\x02\x03\x04\x05\x06\x07\x08\x09\x0a\x0b\x0c\x0d\x0e\x0f\x10\x11\x12\x13\x14\x15\x16\x17\x18\x19\x1a\x1b\x1c\x1d\x1e\x1f",
    b"\x1f\x1e\x1d\x1c\x1b\x1a\x19\x18\x17\x16\x15\x14\x13\x12\x11\x10\x0f\x0e\x0d\x0c\x0b\x0a\x09\x08\x07\x06\x05\x04\x03\x02\x01\x00",
];

// 40 bytes or more, which are folded into the wide register.
const LONG: [&[u8]; 3] = [
    b"The quick brown fox jumps over the lazy dog",
    b"ABCDEFGHIJKLMNOPQRSTUVWXYZabcdefghijklmnopqrstuvwxyz0123456789",
    b"12345678901234567890123456789012345678901234567890123456789012345678901234567890",
];

// The checksum, which is printed on a line. Where that fails, the line is lacking, which whoever compares them sees.
fn shown(rt: &impl Print, bytes: &[u8]) -> u32
    ensures { result ≡ crc32 bytes.now }
{
    let sum = crc32::checksum(bytes);
    let _ = println!(rt; "{sum:08x}");
    sum
}

fn main(rt: HostRuntime) {
    for vectors in [&AUTOSAR[..], &SHORT[..], &LONG[..]] {
        for bytes in vectors {
            shown(&rt, bytes);
        }
    }
}
