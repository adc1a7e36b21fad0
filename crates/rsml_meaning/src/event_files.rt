ghost use Rattle.rsml_meaning.specs.Laws.{WellFormedHasNoFault, WellFormedIsSound, FirstFaultIsOfLine};

/// An event file has no first fault exactly where it is well-formed, and then all its lines count.
pub fn well_formed_files_have_no_fault()
    ensures exact { WellFormedHasNoFault }
    ensures whole { WellFormedIsSound }
{}

/// The first fault of an event file is that of the first line that has one.
pub fn a_first_fault_is_of_a_line()
    ensures { FirstFaultIsOfLine }
{}
