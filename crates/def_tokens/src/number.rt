//! Numbers.

ghost use Rattle.std.specs.Prelude.{◌≡◌, ◌≤◌, Some, None, if◌then◌else◌};
ghost use Rattle.def_model.specs.Numbers.{digit_of, are_digits, value_of, number_of};

// What a digit counts, or 36.
fn digit_of(byte: u8) -> u8
    ensures value { result ≡ digit_of byte }
    ensures small { result ≤ 36 }
{
    match byte {
        b'0'..=b'9' => byte - b'0',
        b'a'..=b'z' => byte - b'a' + 10,
        b'A'..=b'Z' => byte - b'A' + 10,
        _ => 36,
    }
}

/// What is higher than each number that has a value.
const TOO_HIGH: u64 = 1 << 32;

// The number that digits spell, the highest first. There is none where a byte is no digit, and no value where that is
// 2^32 or more.
fn number_in(base: u64, bytes: &[u8]) -> Option<Option<u32>>
    requires some { 1 ≤ base }
    requires few { base ≤ 36 }
    ensures { result ≡ (if are_digits base bytes.now then Some (value_of base bytes.now) else None) }
{
    let mut value = 0u64;
    for byte in bytes {
        let digit = u64::from(digit_of(*byte));
        if digit >= base {
            return None;
        }
        // (a value that is too high stays so)
        value = (value * base + digit).min(TOO_HIGH);
    }
    if value < TOO_HIGH {
        Some(Some(value as u32))
    } else {
        Some(None)
    }
}

// The number that a run of letters and digits spells. There is none where it spells no number, and
// no value where that is 2^32 or more.
pub(crate) fn number_of(run: &[u8]) -> Option<Option<u32>>
    ensures { result ≡ number_of run.now }
{
    match number_in(10, run) {
        None if run.starts_with(b"0x") && run.len() > 2 => number_in(16, &run[2..]),
        decimal => decimal,
    }
}
