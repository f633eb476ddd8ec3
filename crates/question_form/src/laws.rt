//! Laws of values that stand for programs and for frames.
ghost use Rattle.question_form.specs.FrameViews.{HeadlessValues};

/// The unrolled frame that the value of a program stands for is its unrolled program.
pub fn headless_values()
    ensures { HeadlessValues }
{}
