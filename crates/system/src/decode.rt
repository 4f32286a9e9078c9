// The system register that an encoding names. The arms are the rows of model's table, in their order.
ghost use Rattle.std.specs.Prelude.{◌≡◌};
ghost use Rattle.model.specs.Interface.{system};

use model::{InterruptGroup, Plain, Readable, SystemRegister, Writable};

#[tactic(auto, unfolding(model::specs::Interface::system, model::specs::Interface::system_in))]
pub fn register_of(encoding: u64) -> SystemRegister
    ensures { result ≡ system encoding }
{
    match encoding {
        0xc230 => SystemRegister::Both(Plain::Pmr),
        0xc643 => SystemRegister::Both(Plain::Bpr(InterruptGroup::Group0)),
        0xc644 => SystemRegister::Both(Plain::Apr(InterruptGroup::Group0)),
        0xc648 => SystemRegister::Both(Plain::Apr(InterruptGroup::Group1)),
        0xc663 => SystemRegister::Both(Plain::Bpr(InterruptGroup::Group1)),
        0xc664 => SystemRegister::Both(Plain::Ctlr),
        0xc665 => SystemRegister::Both(Plain::Sre),
        0xc666 => SystemRegister::Both(Plain::Igrpen(InterruptGroup::Group0)),
        0xc667 => SystemRegister::Both(Plain::Igrpen(InterruptGroup::Group1)),
        0xc640 => SystemRegister::Read(Readable::Iar(InterruptGroup::Group0)),
        0xc642 => SystemRegister::Read(Readable::Hppir(InterruptGroup::Group0)),
        0xc65b => SystemRegister::Read(Readable::Rpr),
        0xc660 => SystemRegister::Read(Readable::Iar(InterruptGroup::Group1)),
        0xc662 => SystemRegister::Read(Readable::Hppir(InterruptGroup::Group1)),
        0xc641 => SystemRegister::Write(Writable::Eoir(InterruptGroup::Group0)),
        0xc659 => SystemRegister::Write(Writable::Dir),
        0xc65d => SystemRegister::Write(Writable::Sgi1r),
        0xc65f => SystemRegister::Write(Writable::Sgi0r),
        0xc661 => SystemRegister::Write(Writable::Eoir(InterruptGroup::Group1)),
        _ => SystemRegister::Unnamed,
    }
}
