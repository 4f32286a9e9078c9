// The types that the definitions of specs/ and the code share, the places of the state, and the numbers.
#![tactic(auto)]

pub mod layout;
pub mod values;

ghost use Rattle.std.specs.Prelude.{◌≡◌, ◌<◌};
ghost use Rattle.model.specs.Interface.{group_index};

// The table of refusals, each with its number.
#[derive(Clone, Copy, Debug, PartialEq, Eq)]
pub enum Errno {
    Eperm = 1,
    Eio = 5,
    Enxio = 6,
    Enomem = 12,
    Efault = 14,
    Ebusy = 16,
    Eexist = 17,
    Enodev = 19,
    Einval = 22,
    Enospc = 28,
    Ebadmsg = 74,
}

// Where a memory-mapped register stands: in the distributor, or in the frame of a vCPU.
#[derive(Clone, Copy)]
pub enum View {
    Distributor,
    Frame(usize),
}

// The registers with one bit for each of 32 interrupts, with their names in the manual: the distributor's, then the frame's.
#[derive(Clone, Copy)]
pub enum Flags {
    Group, // GICD_IGROUPR, GICR_IGROUPR0
    SetEnable, // GICD_ISENABLER, GICR_ISENABLER0
    ClearEnable, // GICD_ICENABLER, GICR_ICENABLER0
    SetPending, // GICD_ISPENDR, GICR_ISPENDR0
    ClearPending, // GICD_ICPENDR, GICR_ICPENDR0
    SetActive, // GICD_ISACTIVER, GICR_ISACTIVER0
    ClearActive, // GICD_ICACTIVER, GICR_ICACTIVER0
    Lines, // no register: attribute group 7
}

// Who reads or writes.
#[derive(Clone, Copy)]
pub enum By {
    Guest,
    Attribute,
}

// What such a register shows of an interrupt.
#[derive(Clone, Copy)]
pub enum Shown {
    Nothing,
    Flag,
    Pending,
}

// What a bit written to such a register does to the interrupt's flag.
#[derive(Clone, Copy)]
pub enum Rule {
    Ignores,
    Replaces,
    Sets,
    Clears,
}

// The memory-mapped registers. Fixed are the words of a frame that read as a constant.
#[derive(Clone, Copy)]
pub enum Register {
    Fixed(u32), // GICR_CTLR, GICR_WAKER, GICR_ICFGR0, GICR_ICFGR1
    Control, // GICD_CTLR
    Typer, // GICD_TYPER
    Iidr, // GICD_IIDR, GICR_IIDR
    Status, // GICD_STATUSR, GICR_STATUSR
    Bits(Flags), // those of `Flags`
    Priority, // GICD_IPRIORITYR, GICR_IPRIORITYR
    Config, // GICD_ICFGR
    Route, // GICD_IROUTER
    FrameTyper, // GICR_TYPER, low word
    FrameAffinity, // GICR_TYPER, high word
}

// The interrupt groups.
#[derive(Clone, Copy, Debug, PartialEq, Eq)]
pub enum InterruptGroup {
    Group0 = 0,
    Group1 = 1,
}

impl InterruptGroup {
    // Its number: 0 or 1.
    pub fn index(self) -> usize
        ensures number { result ≡ group_index self }
        ensures below { result < 2 }
    {
        self as usize
    }
}

// The system registers for guest and attribute, both ways.
#[derive(Clone, Copy)]
pub enum Plain {
    Pmr, // ICC_PMR_EL1
    Bpr(InterruptGroup), // ICC_BPR0_EL1, ICC_BPR1_EL1
    Apr(InterruptGroup), // ICC_AP0R0_EL1, ICC_AP1R0_EL1
    Ctlr, // ICC_CTLR_EL1
    Sre, // ICC_SRE_EL1
    Igrpen(InterruptGroup), // ICC_IGRPEN0_EL1, ICC_IGRPEN1_EL1
}

// The system registers that a guest only reads.
#[derive(Clone, Copy)]
pub enum Readable {
    Iar(InterruptGroup), // ICC_IAR0_EL1, ICC_IAR1_EL1
    Hppir(InterruptGroup), // ICC_HPPIR0_EL1, ICC_HPPIR1_EL1
    Rpr, // ICC_RPR_EL1
}

// The system registers that a guest only writes.
#[derive(Clone, Copy)]
pub enum Writable {
    Eoir(InterruptGroup), // ICC_EOIR0_EL1, ICC_EOIR1_EL1
    Dir, // ICC_DIR_EL1
    Sgi1r, // ICC_SGI1R_EL1
    Sgi0r, // ICC_SGI0R_EL1
}

// What an encoding names.
#[derive(Clone, Copy)]
pub enum SystemRegister {
    Both(Plain),
    Read(Readable),
    Write(Writable),
    Unnamed,
}

// The attribute groups that name registers: 1, 5, 6 and 7.
#[derive(Clone, Copy)]
pub enum RegisterGroup {
    Distributor,
    Redistributor,
    Interface,
    Lines,
}

// The attribute groups: 1, 5, 6 and 7; 3; 4; all others.
#[derive(Clone, Copy)]
pub enum AttributeGroup {
    Registers(RegisterGroup),
    Count,
    Initialise,
    Unknown,
}

// What an attribute of the groups 1, 5, 6 and 7 names: a word of a memory-mapped register, or a system register of the vCPU whose frame the view is.
#[derive(Clone, Copy)]
pub enum Item {
    Mapped(View, Register, usize),
    System(View, Plain),
}

// The phase that a call asks for: EBUSY in another.
#[derive(Clone, Copy)]
pub enum Phase {
    // Initialised.
    Initialised,
    // Initialised, for a call that changes interrupts: a guest's write, an acknowledge, a line change.
    Changing,
    // Initialised, and no vCPU runs.
    Stopped,
}
