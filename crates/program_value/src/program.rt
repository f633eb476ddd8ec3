//! A function of a file with its notes.
ghost use Rattle.std.specs.Prelude.{◌≡◌, ◌<◌, ◌^◌};
ghost use Rattle.word_spec.specs.Memory as memory;
ghost use Rattle.bilv_spec.specs.Files.{order_of};
ghost use Rattle.notes_value.specs.NoteViews.{notes_of};
ghost use Rattle.notes_value.specs.Reads.{AreOver, AreReadable};
ghost use Rattle.program_value.specs.Carried.{AreOver-prop, AreReadable-prop, same_order};

use elf32_reader::Image;
use machine_law::Machine;
use notes_value::Notes;
use std::alloc::AllocError;
use std::marker::PhantomData;

/// A function of an ELF file with its notes, on a machine: the image of the file, the notes, the address of the function, and whether the byte order of the
/// machine is big. The file has that byte order, and the lines of the notes are over the machine's registers and flags, so that states can be asked for them.
pub struct Program<'a, M: Machine> {
    pub image: &'a Image<'a>,
    pub notes: &'a Notes,
    pub entry: u32,
    pub big: bool,
    machine: PhantomData<M>,
    pub ghost placed: { entry < 2 ^ 32 },
    pub ghost order: { order_of image.now ≡ M.machine.endian } by { same_order },
    pub ghost big_is: { memory.endian big ≡ M.machine.endian } by { same_order },
    pub ghost readable: { AreReadable M.State.has_register (notes_of notes.now) } by { AreReadable-prop },
    pub ghost over: { AreOver M.machine.has_register M.machine.has_flag (notes_of notes.now) } by { AreOver-prop },
}

impl<'a, M: Machine> Clone for Program<'a, M> {
    fn clone(&self) -> Result<Program<'a, M>, AllocError> {
        Ok(*self)
    }
}

impl<'a, M: Machine> Copy for Program<'a, M> {}

impl<'a, M: Machine> Program<'a, M> {
    ghost use Rattle.bilv_spec.specs.Files as files;
    ghost use Rattle.program_value.specs.Programs.{program_of};

    /// The program of an image and notes whose function is at an address.
    pub fn new(image: &'a Image<'a>, notes: &'a Notes, entry: u32) -> Program<'a, M>
        requires order { order_of image.now ≡ M.machine.endian }
        requires over { AreOver M.machine.has_register M.machine.has_flag (notes_of notes.now) }
        ensures program { program_of result ≡ files.program_of M.machine image.now (notes_of notes.now) entry }
        ensures image { result.image.now ≡ image.now }
        ensures notes { result.notes.now ≡ notes.now }
        ensures entry { result.entry ≡ entry }
    {
        Program {
            image,
            notes,
            entry,
            big: image.is_big_machine(),
            machine: PhantomData,
        }
    }

    /// A program of the same file, with other notes and another function.
    pub fn with_function(&self, notes: &'a Notes, entry: u32) -> Program<'a, M>
        requires { AreOver M.machine.has_register M.machine.has_flag (notes_of notes.now) }
        ensures program { program_of result ≡ files.program_of M.machine self.now.image.now (notes_of notes.now) entry }
        ensures image { result.image.now ≡ self.now.image.now }
        ensures notes { result.notes.now ≡ notes.now }
        ensures entry { result.entry ≡ entry }
    {
        Program {
            image: self.image,
            notes,
            entry,
            big: self.big,
            machine: PhantomData,
        }
    }
}
