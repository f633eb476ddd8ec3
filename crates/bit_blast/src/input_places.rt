//! Where the inputs stand.
ghost use Rattle.std.specs.Prelude.{◌≡◌, [], None, slice_index_or};
ghost use Rattle.bit_blast.specs.Places.{gift_flag, gift_register, lists_of, number_in, reads_of};

/// A base read of a part at an address, by its number among all base reads.
#[derive(Clone, Copy)]
pub struct PartRead {
    pub part: u32,
    pub number: u32,
}

/// Where the inputs of a question stand among the variables, which count from 0: the bits of the registers at entry, then the flags; those of a head state,
/// where there is a head; the choices that are drawn; the registers and the flags that are given at the points of contract steps, in the order of their
/// places; and the bytes of the base reads.
#[derive(Drop)]
pub struct InputPlaces {
    /// The number of the first register.
    pub first_register: u8,
    pub registers: u8,
    pub flags: u8,
    /// There is a head, whose states have registers and flags too.
    pub heads: bool,
    /// For each point its number among those that draw; none where it does not.
    pub drawn: Vec<Option<u32>>,
    /// How many points draw.
    pub choices: u32,
    /// For each point, and each number of a register, the first input of what is given for it there, if it is given.
    pub gift_registers: Vec<Vec<Option<u32>>>,
    /// So for each number of a flag its input.
    pub gift_flags: Vec<Vec<Option<u32>>>,
    /// The base reads at each address, by its number.
    pub part_reads: Vec<Vec<PartRead>>,
    /// How many base reads there are.
    pub reads: u32,
    pub first_flag: u32,
    /// The first input of a head state.
    pub first_head: u32,
    pub first_choice: u32,
    /// The first input of what is given.
    pub first_gift: u32,
    pub first_byte: u32,
    /// How many inputs there are.
    pub inputs: u32,
}

impl InputPlaces {
    /// The number of the base read of a part at the address of a number, if there is one.
    pub fn read(&self, part: u32, address: u32) -> Option<u32>
        ensures { result ≡ slice_index_or (reads_of self.now part) address None }
    {
        let address = address as usize;
        if address < self.part_reads.len() {
            let number = number_in(&self.part_reads[address], part);
            return number;
        }
        None
    }

    /// The first input of the register of a number that is given at the point of a place, if it is given.
    pub fn gift_register(&self, place: u32, number: u8) -> Option<u32>
        ensures { result ≡ gift_register self.now place number }
    {
        let first = number_at(&self.gift_registers, place, number);
        first
    }

    /// The input of the flag of a number that is given at the point of a place, if it is given.
    pub fn gift_flag(&self, place: u32, number: u8) -> Option<u32>
        ensures { result ≡ gift_flag self.now place number }
    {
        let first = number_at(&self.gift_flags, place, number);
        first
    }
}

/// The number of the first base read of a part among some.
fn number_in(reads: &[PartRead], part: u32) -> Option<u32>
    ensures { result ≡ number_in part reads.now }
{
    for place in 0..reads.len() {
        let read = reads[place];
        if read.part == part {
            return Some(read.number);
        }
    }
    None
}

/// What stands in the list of a place at a number; none behind the last.
fn number_at(lists: &[Vec<Option<u32>>], place: u32, number: u8) -> Option<u32>
    ensures { result ≡ slice_index_or (slice_index_or (lists_of lists.now) place []) number None }
{
    let place = place as usize;
    if place < lists.len() {
        let found = option_at(&lists[place], number);
        return found;
    }
    None
}

/// What stands at a number; none behind the last.
fn option_at(numbers: &[Option<u32>], number: u8) -> Option<u32>
    ensures { result ≡ slice_index_or numbers.now number None }
{
    let place = number as usize;
    if place < numbers.len() {
        numbers[place]
    } else {
        None
    }
}
