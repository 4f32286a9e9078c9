// Where the words of the lent state stand, as specs/Layout.antt says it.

// The words of a state, and the most vCPUs that it has.
pub const STATE_LENGTH: usize = 1760;

pub type State = [u32; STATE_LENGTH];

pub const MOST_VCPUS: usize = 8;

// The set-up.
pub const INITIALISED: usize = 0;

pub const COUNT: usize = 1;

pub const VCPUS: usize = 2;

// The distributor's group enables and its STATUSR.
pub const ENABLES: usize = 3;

pub const STATUS: usize = 4;

// The blocks of the vCPUs from 16 on, the banks of the SPIs 32w to 32w + 31 at 256 + 16w, their routes from 768 on.
pub const BLOCKS: usize = 16;

pub const BLOCK_LENGTH: usize = 32;

pub const BANKS: usize = 272;

pub const BANK_LENGTH: usize = 16;

pub const ROUTES: usize = 768;

// The words of a bank; the priorities are eight, the edge flags two.
pub const GROUP: usize = 0;

pub const ENABLED: usize = 1;

pub const LATCH: usize = 2;

pub const ACTIVE: usize = 3;

pub const LINE: usize = 4;

pub const PRIORITIES: usize = 5;

pub const EDGES: usize = 13;

// The words of a block after its bank.
pub const AFFINITY: usize = 16;

pub const RUNNING: usize = 17;

pub const FRAME_STATUS: usize = 18;

pub const PMR: usize = 19;

pub const CTLR: usize = 20;

pub const BPR0: usize = 21;

pub const BPR1: usize = 22;

// The least values of BPR0 and BPR1; they are the fresh values too.
pub const LEAST_BPR0: u32 = 2;

pub const LEAST_BPR1: u32 = 3;

pub const AP0R: usize = 23;

pub const AP1R: usize = 24;

pub const IGRPEN0: usize = 25;
