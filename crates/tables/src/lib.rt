//! Tables of fields: what a line of a table says, what is wrong with one, and the laws of both.
#![tactic(auto)]

ghost use Rattle.tables.specs.Lines.{FaultLaw, LineLaw};

/// For every table: a line has no fault exactly if it is the line of allowed values, and then what is read are those values,
/// and no others have that line.
pub fn lines_are_images()
    ensures { LineLaw }
{}

/// For every table: a line's fault is that of its length or, from the left, of the first field that has one, with the lowest cause in that field.
pub fn first_faults_are_found()
    ensures { FaultLaw }
{}
