//! What holds of every line: each law is the contract of a function that does nothing.

ghost use Rattle.statements.specs.Pseudo.{NamesArePlain, OfBranches, OfConstants, OfJumps, OfRegisters, RegistersArePlain};
ghost use Rattle.statements.specs.DirectiveLaws.{DataIsItsItems, DirectivesState};
ghost use Rattle.statements.specs.OperandLaws.{BlanksChangeNothing, JalrIsAlike, LabelsAreTargets, LinesArePlain, NoOffsetIsZero, NumbersHaveRanges, PartsOfAddresses, RegistersHaveNames};
ghost use Rattle.statements.specs.RefusalLaws.{BracketsAreNeeded, NamesAreNeeded, NumberOfOperandsMatters, PartsAreInBrackets, RegistersAreNeeded, SetsAreNeeded};
ghost use Rattle.statements.specs.Laws.{FormIsNoError, LinesAreRead, OnlyLinesAreRead, TextsAreRead};

/// A line that the rules of the grammar divide is read as what it is divided into says. So the rules
/// divide it in one way only, as far as what it says goes.
pub fn lines_are_read()
    ensures { LinesAreRead }
{}

/// What is read as a line, and not refused for its form, is one that the rules divide.
pub fn only_lines_are_read()
    ensures { OnlyLinesAreRead }
{}

/// A line that the rules divide is not refused for its form: its error is that its name is no mnemonic and
/// no directive's, where it is none, and else something wrong with its operands.
pub fn form_is_no_error()
    ensures { FormIsNoError }
{}

/// The disassembly of an instruction at an address is read as its statement: as the instruction itself, as a
/// jump or a branch to the address that it goes to, or, for a FENCE without a statement of its own,
/// as data with its word.
pub fn texts_are_read()
    ensures { TextsAreRead }
{}

/// A pseudo-instruction is read as the instruction that it means, whatever its operands are: registers
/// by any of their names, labels, numbers, or others that are spelled without blanks. `la`, `call` and
/// `li` say what they are of a register, a label and a number.
pub fn pseudo_instructions_stand_for_others()
    ensures registers { OfRegisters }
    ensures branches { OfBranches }
    ensures jumps { OfJumps }
    ensures constants { OfConstants }
    ensures names { NamesArePlain }
    ensures named { RegistersArePlain }
{}

/// A line with a statement says what the line says that is its mnemonic, one space, and its operands with
/// a comma and a space between; and its labels. So blanks and a comment change nothing.
pub fn lines_are_plain()
    ensures { LinesArePlain }
{}

/// A register in brackets is the address in it, as if the offset 0 stood before the brackets: in each
/// load, in each store and in `jalr`.
pub fn no_offset_is_zero()
    ensures { NoOffsetIsZero }
{}

/// Blanks before a bracket, after an opening one and before a closing one change nothing.
pub fn blanks_change_nothing()
    ensures { BlanksChangeNothing }
{}

/// `jalr d, s, i` is `jalr d, i(s)`.
pub fn jalr_is_alike()
    ensures { JalrIsAlike }
{}

/// `%hi` and `%lo` of a label are the upper and the lower part of its address, which add up to it.
pub fn parts_of_addresses()
    ensures { PartsOfAddresses }
{}

/// A label as the target of a branch or of a jump is that label.
pub fn labels_are_targets()
    ensures { LabelsAreTargets }
{}

/// Each place for a number in an instruction takes the numbers of its range. Another number there is out
/// of range, and what is no number and nothing else that the place takes is a bad operand.
pub fn numbers_have_ranges()
    ensures { NumbersHaveRanges }
{}

/// Each directive says what it is for: `.space` zero bytes, `.align` a multiple of a power of 2, `.word`,
/// `.half` and `.byte` an item, and the others nothing.
pub fn directives_state()
    ensures { DirectivesState }
{}

/// A list of data is its items one by one.
pub fn data_is_its_items()
    ensures { DataIsItsItems }
{}

/// An instruction of three registers is of those that its operands name.
pub fn registers_have_names()
    ensures { RegistersHaveNames }
{}

/// Operands of another number than the mnemonic takes are bad.
pub fn number_of_operands_matters()
    ensures { NumberOfOperandsMatters }
{}

/// Where a register belongs, what is no register is a bad operand, whatever the other operands are.
pub fn registers_are_needed()
    ensures { RegistersAreNeeded }
{}

/// Where an address belongs, what lacks one of its brackets is a bad operand.
pub fn brackets_are_needed()
    ensures { BracketsAreNeeded }
{}

/// After `%lo` and `%hi`, what is not in brackets is a bad operand.
pub fn parts_are_in_brackets()
    ensures { PartsAreInBrackets }
{}

/// Where a label belongs, and nothing else, what is no name is a bad operand.
pub fn names_are_needed()
    ensures { NamesAreNeeded }
{}

/// In a fence of two sets, what is no set is a bad operand.
pub fn sets_are_needed()
    ensures { SetsAreNeeded }
{}
