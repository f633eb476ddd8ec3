//! A function of two files, with the form of the states of its machine.
use elf32_reader::Image;
use machine_law::Machine;
use notes_value::Notes;
use program_value::Program;
use start_value::Layout;

/// The function at an address of an image, by its notes, and the form of the states of its machine, which says which machine that is.
#[derive(Clone, Copy)]
pub struct Sided<'a> {
    pub image: &'a Image<'a>,
    pub notes: &'a Notes,
    pub entry: u32,
    pub layout: Layout,
}

impl<'a> Sided<'a> {
    ghost use Rattle.std.specs.Prelude.{◌≡◌};
    ghost use Rattle.program_value.specs.Programs.{program_of};
    ghost use Rattle.pair_sides.specs.Sides.{IsSided, machine_in, program_of_side};

    /// Its program, on its machine.
    pub fn program<M: Machine>(&self) -> Program<'a, M>
        requires machine { machine_in self.now.layout ≡ M.machine }
        requires sided { IsSided self.now }
        ensures { program_of result ≡ program_of_side self.now }
    {
        Program::new(self.image, self.notes, self.entry)
    }
}
