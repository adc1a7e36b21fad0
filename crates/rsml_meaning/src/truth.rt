ghost use Rattle.rsml_meaning.specs.Laws.{MacrosAreTheirTables, FunctionsAreTheirCases};
ghost use Rattle.rsml_meaning.specs.Laws.{FunctionsGiveTheirCases, FunctionValuesAreOfCases};

/// A phrase that names a macro is true exactly where that instance's table is, where macros and
/// functions are used after their declaration alone.
pub fn macros_are_their_tables()
    ensures { MacrosAreTheirTables }
{}

/// A function that is compared is true exactly where some case with a true guard has a value that
/// compares so, where macros and functions are used after their declaration alone.
pub fn functions_are_their_cases()
    ensures { FunctionsAreTheirCases }
{}

/// A function gives the values of its cases with a true guard, so that its value is that of some case
/// with a true guard, or 0 where none is true; where macros and functions are used after their
/// declaration alone.
pub fn functions_give_their_cases()
    ensures all { FunctionsGiveTheirCases }
    ensures value { FunctionValuesAreOfCases }
{}
