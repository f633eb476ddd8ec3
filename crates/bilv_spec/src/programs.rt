//! Laws of the machine of a file.
ghost use Rattle.bilv_spec.specs.ProgramLaws.{ArmHasOneOption, DefaultsAreFirst, OrderIsOfFile, RiscVHasOneOption};

/// No option changes the byte order of a file's machine.
pub fn order_is_of_file()
    ensures { OrderIsOfFile }
{}

/// Of a RISC-V file the compressed instructions alone are an option.
pub fn risc_v_has_one_option()
    ensures { RiscVHasOneOption }
{}

/// Of an ARM file the profile alone is an option.
pub fn arm_has_one_option()
    ensures { ArmHasOneOption }
{}

/// Where no option is given, an ARM file is of version 4, and a RISC-V file has no compressed instructions.
pub fn defaults_are_first()
    ensures { DefaultsAreFirst }
{}
