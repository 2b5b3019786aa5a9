//! Laws of lowering. Each is the contract of a function with an empty body.
ghost use Rattle.c_lower_rules.specs.Laws.{HaveWellFormed, HaveExamples};
ghost use Rattle.c_lower_rules.specs.Parsed.{HaveTexts};

/// The program that files are is well formed, where nothing is refused in them, they have what every file that was parsed has, and
/// structures and procedures can be counted.
pub fn programs_are_well_formed()
    ensures { HaveWellFormed }
{}

/// Worked examples.
pub fn examples()
    ensures { HaveExamples }
{}

/// A file that the words of a text spell has C names, numbers that are values of an int, lines of 32 bits, and lists that
/// can be counted.
pub fn parsed_files_are_texts()
    ensures { HaveTexts }
{}
