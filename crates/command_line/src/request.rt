// What is asked for, or what is wrong with how it is asked.
ghost use Rattle.std.specs.Prelude.{◌≡◌, None};
ghost use Rattle.command_line.specs.Operands.{arguments};

// The numbers of the arguments that name files or are a question.
#[derive(Clone, Copy)]
pub struct Arguments {
    // The table, su file or log that is read.
    pub file: usize,
    // The log that is written.
    pub log: Option<usize>,
    pub question: Option<usize>,
}

impl Arguments {
    // A file alone.
    pub fn of_file(file: usize) -> Arguments
        ensures { result ≡ arguments file None None }
    {
        Arguments {
            file,
            log: None,
            question: None,
        }
    }
}

#[derive(Clone, Copy)]
pub enum Request {
    // To answer questions from a table, perhaps with a log of the answers.
    Answer(Arguments),
    // To answer questions from a su file.
    AnswerSu(Arguments),
    // To print the records of a log.
    ReadLog(Arguments),
    // To print the figures of a log.
    Figures(Arguments),
    // To check a table, perhaps with a question.
    Check(Arguments),
    // To check a su file.
    CheckSu(Arguments),
    Help,
    Version,
}

// A wrong use, with the numbers of the arguments that are wrong.
#[derive(Clone, Copy)]
pub enum Misuse {
    NoTable,
    NoSuFile,
    NoLog,
    TableFromInput,
    SuFileFromInput,
    LogToOutput,
    UnknownOption(usize),
    // An option that was given before.
    GivenTwice(usize),
    // An option, and one before it with which it cannot stand.
    CannotStandWith(usize, usize),
    // An option behind a name.
    OptionBehind(usize),
    Surplus(usize),
}

// What is to be done, as the options say it.
#[derive(Clone, Copy)]
pub enum Task {
    AnswerFromTable,
    AnswerFromSuFile,
    PrintRecords,
    PrintFigures,
    CheckTable,
    CheckSuFile,
    PrintHelp,
    PrintVersion,
}
