//! What the definitions promise. Each function does nothing: its contract is the law.

ghost use Rattle.text_laws.specs.Labels.{LabelsAreTexts, ProgramsAreShort};
ghost use Rattle.text_laws.specs.Lengths.{PlainTextsStand, TextsAreBounded, TextsAreEscaped};
ghost use Rattle.text_laws.specs.Requests.{RequestsHaveTexts};

/// The texts of a request are UTF-8 and have at most as many bytes as the body that it was read
/// from; nor have its lists more entries.
pub fn requests_have_texts()
    ensures { RequestsHaveTexts }
{}

/// The names of the labels in the image of a text are ASCII, plain, and no longer than the text. A
/// text with which nothing is wrong has at most 1,048,576 bytes.
pub fn labels_are_texts()
    ensures labels { LabelsAreTexts }
    ensures short { ProgramsAreShort }
{}

/// The text of a message that the adapter may send has at most as many bytes as its kind and what
/// is in it say. A text has there at most six times its bytes, and two for its quotes; one that is
/// plain has just its bytes, and these two.
pub fn texts_are_bounded()
    ensures messages { TextsAreBounded }
    ensures texts { TextsAreEscaped }
    ensures plain { PlainTextsStand }
{}
