//! The byte that is known at an address.
ghost use Rattle.std.specs.Prelude.{◌≡◌, ◌&&◌, ◌≤◌, ◌+◌, ◌-◌, nat_le, nat_lt, map, slice_index};
ghost use Rattle.walk_spec.specs.Unrolled.{byte_of_runs};
ghost use Rattle.known_bytes.specs.Runs.{run_of};

use known_bytes::Known;

/// Whether a run has the address.
fn has(run: &Known, address: u32) -> bool
    ensures { result ≡ (nat_le run.now.first address && nat_lt address (run.now.first + (run.now.last - run.now.first + 1))) }
{
    run.first <= address && (address == run.first || address <= run.last)
}

/// The byte of a run at an address; it is 0 behind those that the file has.
fn byte_in(run: &Known, address: u32) -> u8
    requires { run.now.first ≤ address }
    ensures { result ≡ slice_index run.now.bytes.now (address - run.now.first) }
{
    let place = (address - run.first) as usize;
    if place < run.bytes.len() {
        run.bytes[place]
    } else {
        0
    }
}

/// The byte that is known at an address.
pub fn known_byte(runs: &[Known], address: u32) -> Option<u8>
    ensures { result ≡ byte_of_runs (map run_of runs.now) address }
{
    for i in 0..runs.len() {
        let run = runs[i];
        if has(&run, address) {
            return Some(byte_in(&run, address));
        }
    }
    None
}
