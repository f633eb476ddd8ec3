//! The kinds of questions about a function.
ghost use Rattle.std.specs.Prelude.{◌≡◌, option_map};
ghost use Rattle.call_spec.specs.Calls as calls;
ghost use Rattle.call_spec.specs.Framed as framed;
ghost use Rattle.call_form.specs.Views.{asked_of, frame_question, kind_of};

/// Which question is asked of a program: whether there is an entry state, whether its run has an event, or whether its run makes too many backward transfers.
#[derive(Clone, Copy, PartialEq, Eq)]
pub enum Kind {
    Entry,
    Fail,
    Turn,
}

/// Which question of a frame is asked, in the order in which they are due: whether there is an entry state, whether the entry's segment has an event, whether a
/// segment from a head state has one, or whether a segment makes too many backward transfers.
#[derive(Clone, Copy, PartialEq, Eq)]
pub enum Asked {
    Entry,
    Fail,
    Step,
    Turn,
}

impl Asked {
    /// The question of a program as that of its frame.
    pub fn of_program(kind: Kind) -> Asked
        ensures { result ≡ asked_of kind }
    {
        match kind {
            Kind::Entry => Asked::Entry,
            Kind::Fail => Asked::Fail,
            Kind::Turn => Asked::Turn,
        }
    }

    /// The question as one of a program, which has no head states; that about them is none.
    pub fn program(self) -> Option<Kind>
        ensures { option_map kind_of result ≡ calls.program_question (frame_question self) }
    {
        match self {
            Asked::Entry => Some(Kind::Entry),
            Asked::Fail => Some(Kind::Fail),
            Asked::Step => None,
            Asked::Turn => Some(Kind::Turn),
        }
    }

    /// Whether the question speaks of head states.
    pub fn speaks_of_heads(self) -> bool
        ensures { result ≡ framed.asks_head (frame_question self) }
    {
        match self {
            Asked::Entry | Asked::Fail => false,
            Asked::Step | Asked::Turn => true,
        }
    }
}
