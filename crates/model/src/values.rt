// The numbers that definitions and code share, as specs/Values.antt says them.

// ---- what a register reads beside the bits that it keeps, and those bits

// GICD_IIDR and GICR_IIDR.
pub const IIDR: u32 = 0x0100_1000;

// GICD_CTLR: DS and ARE are set; the group enables are kept.
pub const GICD_CTLR_FIXED: u32 = 0x50;

pub const GICD_CTLR_BITS: u32 = 3;

// GICD_TYPER without ITLinesNumber.
pub const GICD_TYPER_FIXED: u32 = 0x0248_0000;

// ICC_CTLR_EL1: five priority bits are set; EOImode is kept.
pub const ICC_CTLR_FIXED: u32 = 0x400;

pub const ICC_CTLR_BITS: u32 = 2;

// ICC_SRE_EL1.
pub const ICC_SRE: u32 = 7;

// ---- interrupts

// A rank is priority x ID_SPAN + ID: every ID is below it.
pub const ID_SPAN: u32 = 1024;

// The ID that IAR and HPPIR give where there is no interrupt.
pub const SPURIOUS: u32 = 1023;

// ---- the record

pub const RECORD_VERSION: u32 = 1;

// ---- the bits that a word of the state may have

// 32 flags, and the same of the interrupts 992 to 1023, of which those from 1020 on do not exist.
pub const FLAG_BITS: u32 = 0xffff_ffff;

pub const LAST_FLAG_BITS: u32 = 0x0fff_ffff;

// The flags of PPIs, in the words where SGIs have none.
pub const PPI_BITS: u32 = 0xffff_0000;

// Four priorities, each a multiple of 8.
pub const PRIORITY_BITS: u32 = 0xf8f8_f8f8;

// Sixteen edge flags, and the same of the interrupts 1008 to 1023.
pub const EDGE_BITS: u32 = 0xffff;

pub const LAST_EDGE_BITS: u32 = 0x0fff;

// A route: Aff2.Aff1.Aff0.
pub const ROUTE_BITS: u32 = 0x00ff_ffff;

// A vCPU's affinity: Aff3 is 0 and Aff0 at most 15.
pub const AFFINITY_BITS: u32 = 0x00ff_ff0f;

pub const STATUSR_BITS: u32 = 15;

pub const PMR_BITS: u32 = 0xf8;

pub const BPR_BITS: u32 = 7;

pub const APR_BITS: u32 = 0xffff_ffff;

// One flag: a vCPU's running mark, IGRPEN0, IGRPEN1.
pub const ONE_BIT: u32 = 1;
