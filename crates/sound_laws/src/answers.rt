//! Soundness of answers: of a component's, where the specs of its callees are valid; and so of all, from the bottom up.
ghost use Rattle.sound_laws.specs.Answers.{AnswerIsValid};
ghost use Rattle.sound_laws.specs.BottomUp.{BottomUpIsValid};

/// The specs of an answer with inductive certificates are valid in each program in which its key stands.
pub fn answer_is_valid()
    ensures { AnswerIsValid }
{}

/// Up the components each answer is valid, if each is where those below it are.
pub fn bottom_up_is_valid()
    ensures { BottomUpIsValid }
{}
