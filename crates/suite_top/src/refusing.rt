//! Ends without an answer.
ghost use Rattle.std.specs.Prelude.{◌≡◌};

use exit_status::{NO_MEMORY, USAGE};
use std::alloc::Global;
use suite_run::Ended;

const USAGE_TEXT: &str = "usage: bilv_suite run SUITE [--only TEXT] [--strict] [--list] [--json]
       bilv_suite notes ELF TEMPLATE [--arm v4|v4t|v5] [--rvc]
       bilv_suite check ELF TEMPLATE [--arm v4|v4t|v5] [--rvc]\n";

/// The end where the line is not lawful.
pub(crate) fn refuse_line(alloc: Global) -> Ended
    ensures { result.status ≡ 2 }
{
    Ended {
        status: USAGE,
        message: String::from_str(alloc, USAGE_TEXT).ok(),
    }
}

/// The end where memory ran out.
pub(crate) fn out_of_memory() -> Ended
    ensures { result.status ≡ 8 }
{
    Ended {
        status: NO_MEMORY,
        message: None,
    }
}
