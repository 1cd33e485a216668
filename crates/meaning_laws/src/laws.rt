//! Laws of the definitions, each carried by the contract of a function that does nothing.
ghost use Rattle.meaning_laws.specs.Counts.{CountsRise, CountsStayWithin};
ghost use Rattle.meaning_laws.specs.Solids.{ProgramsMeanSolids};
ghost use Rattle.meaning_laws.specs.Memory.{ProgramsWantNoMemory};
ghost use Rattle.meaning_laws.specs.Parameters.{TakenIsGiven, HaveLists};

/// The tree that a program means is of solids: each of its surfaces is closed, and its corners are in range.
pub fn programs_mean_solids()
    ensures { ProgramsMeanSolids }
{}

/// A program means a tree, or a fault or a budget of its source; never a want of memory.
pub fn programs_want_no_memory()
    ensures { ProgramsWantNoMemory }
{}

/// A statement takes back no step, no leaf and no triangle, and takes none of them past its limit.
pub fn counts_rise()
    ensures { CountsRise }
{}

/// What a program takes and makes, up to its end or to its refusal, is within all limits.
pub fn counts_stay_within()
    ensures { CountsStayWithin }
{}

/// A parameter of a module of the language takes what a list that has it at its place gives it in any call.
pub fn taken_is_given()
    ensures { TakenIsGiven }
{}

/// Such a list is there for each parameter, at a place or at none, and any number of arguments.
pub fn parameters_have_lists()
    ensures { HaveLists }
{}
