// A number as bytes, lowest first.
ghost use Rattle.std.specs.Prelude.{ℕ, ◌≡◌, ◌≤◌, length};

use byteorder::{ByteOrder, LittleEndian};

pub(crate) trait Number: Copy + Default {
    ghost BYTES: { ℕ };

    // How many bytes it has.
    const BYTES: usize;

    // The number in the first of these bytes.
    fn read(bytes: &[u8]) -> Self
        requires { BYTES ≤ length bytes.now };

    // Puts the number into the first of these bytes.
    fn write(self, bytes: &mut [u8])
        requires { BYTES ≤ length bytes.old };
}

impl Number for u8 {
    ghost BYTES = { 1 };

    const BYTES: usize = 1;

    fn read(bytes: &[u8]) -> u8 {
        bytes[0]
    }

    fn write(self, bytes: &mut [u8]) {
        bytes[0] = self;
    }
}

impl Number for u16 {
    ghost BYTES = { 2 };

    const BYTES: usize = 2;

    fn read(bytes: &[u8]) -> u16 {
        LittleEndian::read_u16(bytes)
    }

    fn write(self, bytes: &mut [u8]) {
        LittleEndian::write_u16(bytes, self);
    }
}

impl Number for u32 {
    ghost BYTES = { 4 };

    const BYTES: usize = 4;

    fn read(bytes: &[u8]) -> u32 {
        LittleEndian::read_u32(bytes)
    }

    fn write(self, bytes: &mut [u8]) {
        LittleEndian::write_u32(bytes, self);
    }
}

impl Number for usize {
    ghost BYTES = { 8 };

    const BYTES: usize = 8;

    fn read(bytes: &[u8]) -> usize {
        LittleEndian::read_u64(bytes) as usize
    }

    fn write(self, bytes: &mut [u8]) {
        LittleEndian::write_u64(bytes, self as u64);
    }
}

impl Number for i64 {
    ghost BYTES = { 8 };

    const BYTES: usize = 8;

    fn read(bytes: &[u8]) -> i64 {
        LittleEndian::read_i64(bytes)
    }

    fn write(self, bytes: &mut [u8]) {
        LittleEndian::write_i64(bytes, self);
    }
}
