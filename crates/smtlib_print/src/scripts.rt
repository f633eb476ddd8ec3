//! The script of a question.
ghost use Rattle.std.specs.Prelude.{◌≡◌, ◌<◌, ◌^◌, ◌++◌, ◌&&◌, ℕ, [], codes, if◌then◌else◌, length, map, string_bytes, IfOk, OnOk};
ghost use Rattle.frame_spec.specs.FrameQuestions.{asks_head};
ghost use Rattle.frame_terms.specs.PassiveFrames as frames;
ghost use Rattle.term_spec.specs.Terms.{node_at};
ghost use Rattle.term_spec.specs.WalkQuestions.{TellsQuestion};
ghost use Rattle.start_value.specs.Starts.{layout_of};
ghost use Rattle.known_bytes.specs.Runs.{run_of, AreRuns};
ghost use Rattle.question_form.specs.FrameQuestions.{frame_of_question, frame_question_of, heads_of_question};
ghost use Rattle.question_form.specs.Questions.{program_of_question, question_of, term_of};
ghost use Rattle.smtlib_print.specs.Commands as commands;
ghost use Rattle.smtlib_print.specs.FrameTold.{TellsFrameScript};
ghost use Rattle.smtlib_print.specs.Numbered.{AreApart, AreOnce};
ghost use Rattle.smtlib_print.specs.Printable.{IsPrintable};
ghost use Rattle.smtlib_print.specs.Scripted.{FitMemory, draws_of, givens_of, source_of, source_text};
ghost use Rattle.smtlib_print.specs.Told.{TellsScript};
ghost use Rattle.smtlib_print.specs.Written.{commands_text, written};

use crate::declarations::{declare_choices, declare_head, declare_part};
use crate::definitions::{push_definitions, push_root};
use crate::file_bytes::push_file;
use crate::gifts::declare_gifts;
use crate::numbering::{frame_numbers, numbers};
use question_form::{Question, Unrolled};
use std::alloc::{AllocError, Global};

/// The most nodes whose places have 32 bits.
const MOST: usize = 4294967295;

/// Appends the logic and the declarations; those of the head state too, where there is one, and those of what contract steps are given, where these are told
/// from rows.
fn push_head(
    out: &mut String,
    unrolled: &Unrolled,
    heads: bool,
    steps: bool,
    numbers: &[u32],
) -> Result<(), AllocError>
    requires { length numbers.now ≡ length unrolled.now.points.items }
    ensures { OnOk result (string_bytes out.new
        ≡ string_bytes out.old ++ (codes "(set-logic QF_ABV)\n"
        ++ commands_text (commands.all_declarations (layout_of unrolled.now.form) heads (commands.drawn numbers.now (draws_of unrolled.now))
        (commands.all_given (layout_of unrolled.now.form) numbers.now (if steps then givens_of unrolled.now else []))))) }
{
    out.push_str("(set-logic QF_ABV)\n")?;
    declare_part(out, unrolled.form, 0)?;
    declare_head(out, unrolled.form, heads)?;
    declare_choices(out, unrolled, numbers)?;
    declare_gifts(out, unrolled, steps, numbers)?;
    Ok(())
}

/// Appends the assertion of the definition at a place, and the check.
fn push_check(out: &mut String, place: usize) -> Result<(), AllocError>
    ensures { OnOk result (string_bytes out.new ≡ string_bytes out.old
        ++ (written (commands.assertion (commands.term place)) ++ codes "\n(check-sat)\n")) }
{
    write!(out, "(assert t{place})\n(check-sat)\n")
}

/// Whether the head state has to have the kept bytes: there is one, and the question speaks of it.
fn is_head_asked(question: &Question, heads: bool) -> bool
    ensures { result ≡ (heads && asks_head (frame_question_of question.now)) }
{
    if heads {
        return question.asked.speaks_of_heads();
    }
    false
}

/// The text of the script of a question, in which the choices of points have these numbers, there is a head state beside that at entry or none, and contract steps
/// are told from rows or are not. The error is want of memory, or of numbers for nodes.
fn text_of(
    alloc: Global,
    question: &Question,
    heads: bool,
    steps: bool,
    numbers: &[u32],
) -> Result<String, AllocError>
    requires printable { (t : ℕ) → t < length question.now.dag → IsPrintable (layout_of question.now.passive.now.unrolled.now.form)
        (length numbers.now) (node_at question.now.dag t) }
    requires runs { AreRuns question.now.passive.now.unrolled.now.known.items }
    requires count { length numbers.now ≡ length question.now.passive.now.unrolled.now.points.items }
    ensures text { IfOk result (λ text. string_bytes text ≡ source_text (source_of question.now heads steps numbers.now)) }
    ensures few { OnOk result (length question.now.dag < 2 ^ 32) }
    ensures fit { OnOk result (FitMemory (map run_of question.now.passive.now.unrolled.now.known.items)) }
{
    let unrolled = question.passive.unrolled;
    let count = question.dag.nodes();
    if count > MOST {
        return Err(AllocError);
    }
    let mut out = String::new(alloc);
    push_head(&mut out, unrolled, heads, steps, numbers)?;
    push_definitions(
        &mut out,
        unrolled.form,
        numbers,
        &question.dag,
        count as u32,
    )?;
    push_root(&mut out, count, question.root)?;
    push_file(
        &mut out,
        is_head_asked(question, heads),
        unrolled.kept,
        &unrolled.known,
    )?;
    push_check(&mut out, count)?;
    Ok(out)
}

/// The script of a question in SMT-LIB 2.6: it is satisfied by exactly those readings of which the question is true. The choice of a point has the number of
/// the point in the order of scripts. The error is want of memory, or of numbers for terms and points.
pub fn script(alloc: Global, question: &Question) -> Result<String, AllocError>
    requires tells { TellsQuestion (program_of_question question.now) (question_of question.now) (term_of question.now) }
    requires runs { AreRuns question.now.passive.now.unrolled.now.known.items }
    requires apart { AreApart (program_of_question question.now) }
    ensures { IfOk result (λ text. TellsScript (program_of_question question.now) (layout_of question.now.passive.now.unrolled.now.form)
        (question_of question.now) (string_bytes text)) }
{
    let numbers = numbers(alloc, question.passive.unrolled)?;
    let text = text_of(alloc, question, false, false, &numbers)?;
    Ok(text)
}

/// The script of a question of a frame in SMT-LIB 2.6: it is satisfied by exactly those readings of which the question is true. Where the frame has a head, it
/// declares the head state too, in symbols that begin with `h_`, whatever the question is; and for each contract step what it is given of what the contract may
/// change, in symbols that begin with `g`, the number of its point, and `_`. The choice of a point has the number of the point in the order of scripts. The error
/// is want of memory, or of numbers for terms and points.
pub fn frame_script(alloc: Global, question: &Question) -> Result<String, AllocError>
    requires tells { frames.TellsQuestion (frame_of_question question.now) (heads_of_question question.now) (frame_question_of question.now)
        (term_of question.now) }
    requires runs { AreRuns question.now.passive.now.unrolled.now.known.items }
    requires apart { AreOnce (map (λ q. q.point) (frame_of_question question.now).points) }
    ensures { IfOk result (λ text. TellsFrameScript (frame_of_question question.now) (heads_of_question question.now)
        (layout_of question.now.passive.now.unrolled.now.form) (frame_question_of question.now) (string_bytes text)) }
{
    let unrolled = question.passive.unrolled;
    let numbers = frame_numbers(alloc, unrolled)?;
    let text = text_of(alloc, question, unrolled.heads, true, &numbers)?;
    Ok(text)
}
