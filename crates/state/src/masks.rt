// The bits that words must not have, as rows; a row repeats over its part of the state.
use model::layout::{LEAST_BPR0, LEAST_BPR1};
use model::values::{
    AFFINITY_BITS, APR_BITS, BPR_BITS, EDGE_BITS, FLAG_BITS, GICD_CTLR_BITS, ICC_CTLR_BITS,
    LAST_EDGE_BITS, LAST_FLAG_BITS, ONE_BIT, PMR_BITS, PPI_BITS, PRIORITY_BITS, ROUTE_BITS,
    STATUSR_BITS,
};

// What does not exist has no bit.
pub const ABSENT: u32 = 0xffff_ffff;

// The set-up may have any: it is tested by its values.
const SET_UP: u32 = 0;

// An SPI's route.
pub const ROUTE: u32 = !ROUTE_BITS;

// The words of the device itself, 0 to 15.
pub const HEADER: [u32; 16] = [
    SET_UP,
    SET_UP,
    SET_UP,
    !GICD_CTLR_BITS,
    !STATUSR_BITS,
    ABSENT,
    ABSENT,
    ABSENT,
    ABSENT,
    ABSENT,
    ABSENT,
    ABSENT,
    ABSENT,
    ABSENT,
    ABSENT,
    ABSENT,
];

// A vCPU's block.
pub const BLOCK: [u32; 32] = [
    !FLAG_BITS,
    !FLAG_BITS,
    !FLAG_BITS,
    !FLAG_BITS,
    !PPI_BITS,
    !PRIORITY_BITS,
    !PRIORITY_BITS,
    !PRIORITY_BITS,
    !PRIORITY_BITS,
    !PRIORITY_BITS,
    !PRIORITY_BITS,
    !PRIORITY_BITS,
    !PRIORITY_BITS,
    !EDGE_BITS,
    ABSENT,
    ABSENT,
    !AFFINITY_BITS,
    !ONE_BIT,
    !STATUSR_BITS,
    !PMR_BITS,
    !ICC_CTLR_BITS,
    !BPR_BITS,
    !BPR_BITS,
    !APR_BITS,
    !APR_BITS,
    !ONE_BIT,
    !ONE_BIT,
    ABSENT,
    ABSENT,
    ABSENT,
    ABSENT,
    ABSENT,
];

// A bank of SPIs.
pub const BANK: [u32; 16] = [
    !FLAG_BITS,
    !FLAG_BITS,
    !FLAG_BITS,
    !FLAG_BITS,
    !FLAG_BITS,
    !PRIORITY_BITS,
    !PRIORITY_BITS,
    !PRIORITY_BITS,
    !PRIORITY_BITS,
    !PRIORITY_BITS,
    !PRIORITY_BITS,
    !PRIORITY_BITS,
    !PRIORITY_BITS,
    !EDGE_BITS,
    !EDGE_BITS,
    ABSENT,
];

// The bank of the interrupts 992 to 1023, of which those from 1020 on do not exist.
pub const LAST_BANK: [u32; 16] = [
    !LAST_FLAG_BITS,
    !LAST_FLAG_BITS,
    !LAST_FLAG_BITS,
    !LAST_FLAG_BITS,
    !LAST_FLAG_BITS,
    !PRIORITY_BITS,
    !PRIORITY_BITS,
    !PRIORITY_BITS,
    !PRIORITY_BITS,
    !PRIORITY_BITS,
    !PRIORITY_BITS,
    !PRIORITY_BITS,
    ABSENT,
    !EDGE_BITS,
    !LAST_EDGE_BITS,
    ABSENT,
];

// The words of the device itself, where it is fresh.
pub const FRESH_HEADER: [u32; 16] = [
    SET_UP, SET_UP, SET_UP, ABSENT, ABSENT, ABSENT, ABSENT, ABSENT, ABSENT, ABSENT, ABSENT, ABSENT,
    ABSENT, ABSENT, ABSENT, ABSENT,
];

// A vCPU's block, where the device is fresh.
pub const FRESH_BLOCK: [u32; 32] = [
    ABSENT,
    ABSENT,
    ABSENT,
    ABSENT,
    ABSENT,
    ABSENT,
    ABSENT,
    ABSENT,
    ABSENT,
    ABSENT,
    ABSENT,
    ABSENT,
    ABSENT,
    !EDGE_BITS,
    ABSENT,
    ABSENT,
    !AFFINITY_BITS,
    ABSENT,
    ABSENT,
    ABSENT,
    ABSENT,
    !LEAST_BPR0,
    !LEAST_BPR1,
    ABSENT,
    ABSENT,
    ABSENT,
    ABSENT,
    ABSENT,
    ABSENT,
    ABSENT,
    ABSENT,
    ABSENT,
];
