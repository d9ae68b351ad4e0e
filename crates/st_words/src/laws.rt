//! What the definitions say of words as a whole: functions with an empty body, whose contract is the law.
ghost use Rattle.st_words.specs.Words.{HasOneTask};

/// Words ask for at most one task.
pub fn one_task()
    ensures { HasOneTask }
{}
