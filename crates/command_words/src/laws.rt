//! What holds of the words of a command. A law has no body: its contract is the law.
ghost use Rattle.command_words.specs.Given.{ReadsWhatIsGiven};
ghost use Rattle.command_words.specs.Reading.{read};

/// What is read of the words after a command is what they give, in whatever order they give it.
pub fn words_are_read_in_any_order()
    ensures { ReadsWhatIsGiven read }
{}
