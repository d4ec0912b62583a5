//! What holds of every stream and of every past: each law is the contract of a function that does nothing.

ghost use Rattle.mirror.specs.Laws.{CutsDoNotMatter, FaultsStay, InputsMakePasts, MessagesMakeFacts};

/// However the bytes between two requests are cut, the facts after them are the same.
pub fn cuts_do_not_matter()
    ensures { CutsDoNotMatter }
{}

/// The facts after the bytes of a whole stream are those that all its messages make, in order.
pub fn messages_make_facts()
    ensures { MessagesMakeFacts }
{}

/// A fault of a stream is there for good, and no message comes after it.
pub fn faults_stay()
    ensures { FaultsStay }
{}

/// The past that a list of inputs makes is made input by input.
pub fn inputs_make_pasts()
    ensures { InputsMakePasts }
{}
