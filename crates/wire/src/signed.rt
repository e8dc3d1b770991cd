// Signed numbers: the word of a value row, and the i32 that a union's labels are compared with.
ghost use Rattle.std.specs.Prelude.{◌≡◌, ◌/◌, ◌^◌, ◌<◌, ◌≤◌};
ghost use Rattle.std.specs.Int.{w32};
ghost use Rattle.std.proofs.Common.{to_z};
ghost use Rattle.wire.specs.Signed.{extended};

// The first number of `width` bytes that is negative.
fn half_of(width: usize) -> u64
    requires { (0 < width) × (width ≤ 8) }
    ensures { result ≡ 256 ^ width / 2 }
{
    match width {
        1 => 0x80,
        2 => 0x8000,
        3 => 0x80_0000,
        4 => 0x8000_0000,
        5 => 0x80_0000_0000,
        6 => 0x8000_0000_0000,
        7 => 0x80_0000_0000_0000,
        _ => 0x8000_0000_0000_0000,
    }
}

// The 64-bit word of a number of `width` bytes in two's complement.
pub fn extend(x: u64, width: usize) -> u64
    requires { (0 < width) × (width ≤ 8) × (x < 256 ^ width) }
    ensures { result ≡ extended width x }
{
    let half = half_of(width);
    if x < half {
        return x;
    }
    (x - half) + (18446744073709551615 - half + 1)
}

// The i32 that has the bits of `x`: half the range is added, wrapping, and taken off again.
pub fn as_i32(x: u32) -> i32
    ensures { result ≡ to_z w32 x }
{
    let raised = std::num::wrapping_add_u32(x, 0x8000_0000);
    ((raised as i64) - 0x8000_0000) as i32
}
