//! What state texts call a machine, its registers and its flags.
ghost use Rattle.std.specs.Prelude.{◌≡◌, length, map};
ghost use Rattle.machine_spec.specs.StateText.{value_names, lines_of_head};
ghost use Rattle.machine_spec.specs.StateText as texts;
ghost use Rattle.machine_spec.specs.Arm.{profile_of};
ghost use Rattle.word_spec.specs.Memory.{endian};
ghost use Rattle.start_value.specs.Starts.{layout_of, profile_in};

/// The instructions of ARM state that have rows: those of version 4, with BX, and with BX and CLZ.
#[derive(Clone, Copy)]
pub enum Profile {
    V4,
    V4T,
    V5,
}

impl Profile {
    /// The profile of a number: 0 is version 4, 1 version 4T, and any other version 5.
    pub fn of(number: u8) -> Profile
        ensures { profile_in result ≡ profile_of number }
    {
        if number == 0 {
            Profile::V4
        } else if number == 1 {
            Profile::V4T
        } else {
            Profile::V5
        }
    }
}

/// The machine of a text: RV32IM, or ARM in a byte order and a profile.
#[derive(Clone, Copy)]
pub enum Layout {
    Rv32 {
        /// Whether it has the compressed instructions (RV32IMC).
        compressed: bool,
    },
    Arm {
        /// Whether the byte order is big; else it is little.
        big: bool,
        profile: Profile,
    },
}

/// The registers of RV32IM that a text has.
const RV_NAMES: [&[u8]; 31] = [
    b"x1", b"x2", b"x3", b"x4", b"x5", b"x6", b"x7", b"x8", b"x9", b"x10", b"x11", b"x12", b"x13",
    b"x14", b"x15", b"x16", b"x17", b"x18", b"x19", b"x20", b"x21", b"x22", b"x23", b"x24", b"x25",
    b"x26", b"x27", b"x28", b"x29", b"x30", b"x31",
];

/// The registers of ARM that a text has, and its flags.
const ARM_NAMES: [&[u8]; 19] = [
    b"r0", b"r1", b"r2", b"r3", b"r4", b"r5", b"r6", b"r7", b"r8", b"r9", b"r10", b"r11", b"r12",
    b"r13", b"r14", b"N", b"Z", b"C", b"V",
];

/// What the text calls RV32IM.
fn rv_name(compressed: bool) -> &'static [u8]
    ensures { result.now ≡ texts.rv_name compressed }
{
    if compressed { b"rv32imc" } else { b"rv32im" }
}

/// What the text calls ARM.
fn arm_name(big: bool, profile: Profile) -> &'static [u8]
    ensures { result.now ≡ texts.arm_name (endian big) (profile_in profile) }
{
    match profile {
        Profile::V4 => { if big { b"armv4-be" } else { b"armv4-le" } }
        Profile::V4T => { if big { b"armv4t-be" } else { b"armv4t-le" } }
        Profile::V5 => { if big { b"armv5-be" } else { b"armv5-le" } }
    }
}

impl Layout {
    /// What the text calls the machine.
    pub fn machine(self) -> &'static [u8]
        ensures { result.now ≡ (layout_of self).machine }
    {
        match self {
            Layout::Rv32 { compressed } => rv_name(compressed),
            Layout::Arm { big, profile } => arm_name(big, profile),
        }
    }

    /// What the text calls the registers and then the flags, in order.
    pub fn names(self) -> &'static [&'static [u8]]
        ensures { map (λ name. name.now) result.now ≡ value_names (layout_of self) }
    {
        match self {
            Layout::Rv32 { .. } => &RV_NAMES,
            Layout::Arm { .. } => &ARM_NAMES,
        }
    }

    /// How many registers the text has.
    pub fn register_count(self) -> usize
        ensures { result ≡ length (layout_of self).registers }
    {
        match self {
            Layout::Rv32 { .. } => 31,
            Layout::Arm { .. } => 15,
        }
    }

    /// The number of the text's first register, and how many registers it has.
    pub fn registers(self) -> (u8, u8)
        ensures first { result.0 ≡ (layout_of self).first }
        ensures count { result.1 ≡ length (layout_of self).registers }
    {
        match self {
            Layout::Rv32 { .. } => (1, 31),
            Layout::Arm { .. } => (0, 15),
        }
    }

    /// How many flags the text has.
    pub fn flag_count(self) -> u8
        ensures { result ≡ length (layout_of self).flags }
    {
        match self {
            Layout::Rv32 { .. } => 0,
            Layout::Arm { .. } => 4,
        }
    }

    /// How many lines of a text stand before its bytes: the ending's, the machine's, and one for each register and flag.
    pub fn head_lines(self) -> u64
        ensures { result ≡ lines_of_head (layout_of self) }
    {
        match self {
            Layout::Rv32 { .. } => 33,
            Layout::Arm { .. } => 21,
        }
    }
}
