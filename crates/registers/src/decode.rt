// The register at an offset, and the number of the word there. The arms are the rows of model's tables, in their order.
ghost use Rattle.std.specs.Prelude.{◌≡◌};
ghost use Rattle.model.specs.Registers.{decode, rows, distributor_rows, frame_rows};

use model::{Flags, Register, View};

// In the distributor: the rows `distributor_rows`.
#[tactic(auto, unfolding(model::specs::Registers::decode, model::specs::Registers::in_row))]
pub fn distributor_at(offset: u64) -> Option<(Register, usize)>
    ensures { result ≡ decode distributor_rows offset }
{
    let at = offset as usize;
    match at {
        0x0..=0x3 => Some((Register::Control, 0)),
        0x4..=0x7 => Some((Register::Typer, 0)),
        0x8..=0xb => Some((Register::Iidr, 0)),
        0x10..=0x13 => Some((Register::Status, 0)),
        0x80..=0xff => Some((Register::Bits(Flags::Group), (at - 0x80) / 4)),
        0x100..=0x17f => Some((Register::Bits(Flags::SetEnable), (at - 0x100) / 4)),
        0x180..=0x1ff => Some((Register::Bits(Flags::ClearEnable), (at - 0x180) / 4)),
        0x200..=0x27f => Some((Register::Bits(Flags::SetPending), (at - 0x200) / 4)),
        0x280..=0x2ff => Some((Register::Bits(Flags::ClearPending), (at - 0x280) / 4)),
        0x300..=0x37f => Some((Register::Bits(Flags::SetActive), (at - 0x300) / 4)),
        0x380..=0x3ff => Some((Register::Bits(Flags::ClearActive), (at - 0x380) / 4)),
        0x400..=0x7ff => Some((Register::Priority, (at - 0x400) / 4)),
        0xc00..=0xcff => Some((Register::Config, (at - 0xc00) / 4)),
        0x6100..=0x7fdf => Some((Register::Route, (at - 0x6100) / 4)),
        _ => None,
    }
}

// In a vCPU's frame: the rows `frame_rows`.
#[tactic(auto, unfolding(model::specs::Registers::decode, model::specs::Registers::in_row))]
pub fn frame_at(offset: u64) -> Option<(Register, usize)>
    ensures { result ≡ decode frame_rows offset }
{
    let at = offset as usize;
    match at {
        0x0..=0x3 => Some((Register::Fixed(0), 0)),
        0x4..=0x7 => Some((Register::Iidr, 0)),
        0x8..=0xb => Some((Register::FrameTyper, 0)),
        0xc..=0xf => Some((Register::FrameAffinity, 0)),
        0x10..=0x13 => Some((Register::Status, 0)),
        0x14..=0x17 => Some((Register::Fixed(0), 0)),
        0x10080..=0x10083 => Some((Register::Bits(Flags::Group), 0)),
        0x10100..=0x10103 => Some((Register::Bits(Flags::SetEnable), 0)),
        0x10180..=0x10183 => Some((Register::Bits(Flags::ClearEnable), 0)),
        0x10200..=0x10203 => Some((Register::Bits(Flags::SetPending), 0)),
        0x10280..=0x10283 => Some((Register::Bits(Flags::ClearPending), 0)),
        0x10300..=0x10303 => Some((Register::Bits(Flags::SetActive), 0)),
        0x10380..=0x10383 => Some((Register::Bits(Flags::ClearActive), 0)),
        0x10400..=0x1041f => Some((Register::Priority, (at - 0x10400) / 4)),
        0x10c00..=0x10c03 => Some((Register::Fixed(0xaaaa_aaaa), 0)),
        0x10c04..=0x10c07 => Some((Register::Fixed(0), 0)),
        _ => None,
    }
}

// In the distributor or in a frame.
#[tactic(auto, unfolding(model::specs::Registers::rows))]
pub fn register_at(view: View, offset: u64) -> Option<(Register, usize)>
    ensures { result ≡ decode (rows view) offset }
{
    match view {
        View::Distributor => distributor_at(offset),
        View::Frame(_) => frame_at(offset),
    }
}
