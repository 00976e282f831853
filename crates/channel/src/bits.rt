// Bytes and their bits.
ghost use Rattle.std.specs.Prelude.{◌≡◌, ◌<◌, Bool};
ghost use Rattle.serial.specs.Frame.{bit};
ghost use Rattle.channel.specs.Bits.{byte_of};

// Whether bit `k` of a byte is set. (That of a frame is `serial::format::bit_at`: one for both would widen the byte at each call.)
pub(crate) fn is_set(byte: u8, k: u8) -> bool
    requires { k < 8 }
    ensures { result ≡ bit byte k }
{
    (byte >> k) & 1 == 1
}

// The byte of eight bits, bit 7 first. They are eight parameters and no array: nothing else ever holds the eight together, and the sum says
// their weights as the definition does, where a fold would hide them.
pub(crate) fn byte_of(
    b7: bool,
    b6: bool,
    b5: bool,
    b4: bool,
    b3: bool,
    b2: bool,
    b1: bool,
    b0: bool,
) -> u8
    ensures { result ≡ byte_of b7 b6 b5 b4 b3 b2 b1 b0 }
{
    128 * u8::from(b7)
        + 64 * u8::from(b6)
        + 32 * u8::from(b5)
        + 16 * u8::from(b4)
        + 8 * u8::from(b3)
        + 4 * u8::from(b2)
        + 2 * u8::from(b1)
        + u8::from(b0)
}
