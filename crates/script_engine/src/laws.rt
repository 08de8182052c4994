//! What holds of the answers of scripts.
ghost use Rattle.script_engine.specs.Answers.{AnswersOnce};

/// Of the replies of a single caller to a list or a deque, and of what is left, there is no other choice.
pub fn answers_once()
    ensures { AnswersOnce }
{}
