//! The grammar of a whole file, and the laws of reading one: theorems, each the contract of a function.
#![tactic(auto)]

ghost use Rattle.grammar.specs.Laws.{MeaningLaw, ReadingLaw, WritingLaw};

/// A file is accepted exactly if it belongs to the grammar, with what it says there, and any other bytes are refused with their first fault.
pub fn reading_is_grammar()
    ensures { ReadingLaw }
{}

/// All bytes are a file with one heading and one list of batches, or have one first fault, and never both.
pub fn files_have_one_meaning()
    ensures { MeaningLaw }
{}

/// What fits is written so that it belongs to the grammar, and is read as what was written.
pub fn written_files_are_read()
    ensures { WritingLaw }
{}
