//! Laws of the trees that tokens spell.

ghost use Rattle.ca_shapes.specs.Laws.{EachProgramIsATree, EachProgramOfATextIsWritten};

/// What tokens are as a program within the limits is the tree of a program within the limits.
pub fn each_program_is_a_tree()
    ensures { EachProgramIsATree }
{}

/// Where these are the tokens of a text, the names, numbers and strings of the tree are such as a text can have.
pub fn each_program_of_a_text_is_written()
    ensures { EachProgramOfATextIsWritten }
{}
