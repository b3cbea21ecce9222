//! Writes the numbers of the file: big-endian ones, and those of variable width.

ghost use Rattle.std.specs.Prelude.{◌≡◌, ◌++◌, OnOk};
ghost use Rattle.git_index.specs.Numbers.{u16_bytes, u32_bytes, width_bytes};

use std::alloc::AllocError;

/// The first numbers that take two, three and four bytes.
pub(crate) const TWO_BYTES: usize = 0x80;

pub(crate) const THREE_BYTES: usize = 0x4080;

pub(crate) const FOUR_BYTES: usize = 0x20_4080;

/// Writes a big-endian number of two bytes.
#[tactic(auto, unfolding(crate::specs::Numbers::u16_bytes))]
pub(crate) fn put_u16(out: &mut Vec<u8>, number: u16) -> Result<(), AllocError>
    ensures { OnOk result (out.new.items ≡ out.old.items ++ u16_bytes number) }
{
    out.extend_from_slice(&number.to_be_bytes())
}

/// Writes a big-endian number of four bytes.
#[tactic(auto, unfolding(crate::specs::Numbers::u32_bytes))]
pub(crate) fn put_u32(out: &mut Vec<u8>, number: u32) -> Result<(), AllocError>
    ensures { OnOk result (out.new.items ≡ out.old.items ++ u32_bytes number) }
{
    out.extend_from_slice(&number.to_be_bytes())
}

/// Writes a number of variable width. Of a number that takes more than four bytes only the low bits count.
#[tactic(auto, unfolding(crate::specs::Numbers::width_bytes))]
pub(crate) fn put_width(out: &mut Vec<u8>, number: usize) -> Result<(), AllocError>
    ensures { OnOk result (out.new.items ≡ out.old.items ++ width_bytes number) }
{
    if number < TWO_BYTES {
        return out.extend_from_slice(&[number as u8]);
    }
    if number < THREE_BYTES {
        let n = number - TWO_BYTES;
        return out.extend_from_slice(&[(0x80 + n / 0x80) as u8, (n % 0x80) as u8]);
    }
    if number < FOUR_BYTES {
        let n = number - THREE_BYTES;
        return out.extend_from_slice(&[
            (0x80 + n / 0x4000) as u8,
            (0x80 + n / 0x80 % 0x80) as u8,
            (n % 0x80) as u8,
        ]);
    }
    let n = number - FOUR_BYTES;
    out.extend_from_slice(&[
        (0x80 + n / 0x20_0000 % 0x80) as u8,
        (0x80 + n / 0x4000 % 0x80) as u8,
        (0x80 + n / 0x80 % 0x80) as u8,
        (n % 0x80) as u8,
    ])
}
