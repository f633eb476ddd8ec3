//! The machine of a file.
ghost use Rattle.std.specs.Prelude.{◌≡◌};
ghost use Rattle.call_spec.specs.Calls as files;
ghost use Rattle.bilv_spec.specs.Files.{is_rv, layout_of, machine_of};
ghost use Rattle.notes_spec.specs.Scopes.{in_dialect};
ghost use Rattle.notes_spec.specs.Programs.{vocabulary_of};
ghost use Rattle.bilv_spec.specs.LiftText.{bank_by};
ghost use Rattle.command_line.specs.Commands.{options_of};
ghost use Rattle.notes_lang.specs.declared.notes.Dialect as dialects;
ghost use Rattle.notes_lang.specs.Named.{dialect_of};
ghost use Rattle.notes_lang.specs.Parsing.{layout_flags, layout_registers, layout_vocabulary};
ghost use Rattle.start_value.specs.Starts as starts;
ghost use Rattle.pair_sides.specs.Sides.{machine_in};
ghost use Rattle.bilv_top.specs.Chosen.{bank_in};

use command_line::Options;
use elf32_reader::Image;
use start_value::Layout;

/// The form of a file's machine by some options, which says what machine it is. Its registers and flags are the same whatever the options.
pub fn layout(image: &Image, options: Options) -> Layout
    ensures vocabulary { (d : dialects.Dialect) → layout_vocabulary result d ≡ in_dialect (dialect_of d) (vocabulary_of (options_of options) image.now) }
    ensures registers { (o : files.Options) → layout_registers result ≡ (machine_of o image.now).has_register }
    ensures flags { (o : files.Options) → layout_flags result ≡ (machine_of o image.now).has_flag }
    ensures machine { machine_of (options_of options) image.now ≡ machine_in result }
    ensures form { layout_of (options_of options) image.now ≡ starts.layout_of result }
    ensures bank { bank_by (is_rv image.now) ≡ bank_in result }
{
    if image.is_risc_v() {
        Layout::Rv32 {
            compressed: options.compressed,
        }
    } else {
        Layout::Arm {
            big: image.big(),
            profile: options.profile,
        }
    }
}

/// Whether some rows of a file's machine have 2 bytes, by some options.
pub fn is_narrow(image: &Image, options: Options) -> bool
    ensures { result ≡ (machine_of (options_of options) image.now).narrow }
{
    if image.is_risc_v() {
        options.compressed
    } else {
        false
    }
}

/// Calls a function that is generic over machines with the machine of an image by some options. In square brackets stand its further type arguments. The caller has
/// `layout`, `Layout`, `Profile`, `Rv32` and `Arm` in scope.
#[macro_export]
macro_rules! on_machine {
    ($image:expr, $options:expr, $call:ident [$($more:ident),*] ($($argument:expr),*)) => {
        match layout($image, $options) {
            Layout::Rv32 { compressed: false } => $call::<Rv32<0> $(, $more)*>($($argument),*),
            Layout::Rv32 { compressed: true } => $call::<Rv32<1> $(, $more)*>($($argument),*),
            Layout::Arm { big: false, profile: Profile::V4 } => $call::<Arm<0, 0> $(, $more)*>($($argument),*),
            Layout::Arm { big: false, profile: Profile::V4T } => $call::<Arm<0, 1> $(, $more)*>($($argument),*),
            Layout::Arm { big: false, profile: Profile::V5 } => $call::<Arm<0, 2> $(, $more)*>($($argument),*),
            Layout::Arm { big: true, profile: Profile::V4 } => $call::<Arm<1, 0> $(, $more)*>($($argument),*),
            Layout::Arm { big: true, profile: Profile::V4T } => $call::<Arm<1, 1> $(, $more)*>($($argument),*),
            Layout::Arm { big: true, profile: Profile::V5 } => $call::<Arm<1, 2> $(, $more)*>($($argument),*),
        }
    };
}
