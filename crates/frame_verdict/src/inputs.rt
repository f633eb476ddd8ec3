//! How many inputs the questions of an unrolled frame have besides the bytes of base reads.
ghost use Rattle.std.specs.Prelude.{◌≡◌, ◌≤◌, ◌+◌, ◌*◌, ◌^◌, filter, length, if◌then◌else◌};
ghost use Rattle.word_spec.specs.RowFiles.{from_to};
ghost use Rattle.frame_turns.specs.Raised.{free_inputs};
ghost use Rattle.notes_value.specs.FrameViews as sets;
ghost use Rattle.question_form.specs.FrameViews.{frame_unrolled_of};
ghost use Rattle.frame_verdict.specs.FreeInputs.{AreGiven, inputs_below, state_inputs};

use question_form::{Deed, Unrolled};

/// How many numbers of a range are in a set that has a bit for each.
fn count_in(set: u32, from: u8, count: u8) -> u64
    requires range { from + count ≤ 32 }
    ensures is { result ≡ length (filter (sets.is_in set) (from_to from count)) }
    ensures few { result ≤ count }
{
    let mut members: u64 = 0;
    for i in 0..count {
        members += ((set >> (from + i)) % 2) as u64;
    }
    members
}

/// How many inputs what is given has where this is done: 32 for each register that a contract may change, and one for each flag.
fn given_inputs(unrolled: &Unrolled, deed: Deed) -> u64
    ensures given { AreGiven unrolled.now deed result }
    ensures few { result ≤ 1056 }
{
    if let Deed::Contract(number) = deed {
        if number < unrolled.stepped.len() {
            let contract = &unrolled.stepped[number];
            let (from, count) = unrolled.form.registers();
            let registers = count_in(contract.registers, from, count);
            let flags = count_in(contract.flags as u32, 0, unrolled.form.flag_count());
            return 32 * registers + flags;
        }
    }
    0
}

/// How many inputs the choice of a point has, by whether its row reads it.
fn choice_inputs(draws: bool) -> u64
    ensures { result ≡ (if draws then 2 else 0) }
{
    if draws { 2 } else { 0 }
}

/// How many inputs the choices have and what is given, at all points.
fn point_inputs(unrolled: &Unrolled) -> u64
    requires { length unrolled.now.points.items ≤ 2 ^ 28 }
    ensures is { result ≡ inputs_below (frame_unrolled_of unrolled.now) (length (frame_unrolled_of unrolled.now).points) }
    ensures few { result ≤ 1058 * length unrolled.now.points.items }
{
    let mut inputs: u64 = 0;
    for i in 0..unrolled.points.len() {
        let point = unrolled.points[i];
        let choices = choice_inputs(unrolled.draws(point.code));
        let given = given_inputs(unrolled, point.deed);
        inputs += choices + given;
    }
    inputs
}

/// How many inputs states have: that of the entry, and that of the head where the frame has one.
fn begin_inputs(unrolled: &Unrolled) -> u64
    ensures is { result ≡ state_inputs (frame_unrolled_of unrolled.now)
        + (if unrolled.now.heads then state_inputs (frame_unrolled_of unrolled.now) else 0) }
    ensures few { result ≤ 2048 }
{
    let registers = unrolled.form.register_count() as u64;
    let flags = unrolled.form.flag_count() as u64;
    let state = 32 * registers + flags;
    if unrolled.heads { 2 * state } else { state }
}

/// How many inputs the questions of an unrolled frame have besides the bytes of base reads: 32 for each register and one for each flag, of the entry, of the head
/// where the frame has one, and of what contract steps are given; and two for each point whose row reads the choice.
pub fn free_inputs(unrolled: &Unrolled) -> u64
    requires { length unrolled.now.points.items ≤ 2 ^ 28 }
    ensures { result ≡ free_inputs (frame_unrolled_of unrolled.now) unrolled.now.heads }
{
    begin_inputs(unrolled) + point_inputs(unrolled)
}
