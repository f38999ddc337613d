//! What holds of the normal forms of methods.

ghost use Rattle.text_resolve.specs.Excluded as excluded;
ghost use Rattle.text_resolve.specs.Plain.{OneForm, OneFormat};
ghost use Rattle.text_resolve.specs.WellFormed as laws;

/// The normal forms of a file's methods are well formed: indices are in range, calls have as many arguments as the called method has parameters, and fields have what their formats need.
pub fn form_is_well_formed()
    ensures { laws.FormIsWellFormed }
{}

/// In the normal forms of a file's methods each format of a method has the header and control fields of the others, at the same places.
pub fn form_is_alike()
    ensures form { laws.FormIsAlike }
    ensures kept { laws.KeptIsAlike }
{}

/// The methods that the top reaches keep this beside the others without formats.
pub fn kept_is_well_formed()
    ensures { laws.KeptIsWellFormed }
{}

/// Under one setting a section gives one format, up to the boxes of expressions.
pub fn one_format()
    ensures { OneFormat }
{}

/// The methods of a file have one normal form with a top, up to the boxes of expressions.
pub fn one_form()
    ensures { OneForm }
{}

/// A file with a normal form defines no name twice, and each of its constants has a value.
pub fn no_cause_of_head()
    ensures { excluded.NoCauseOfHead }
{}

/// In a file with a normal form each method has one: no fault of names and sections, of INITIAL, of formats and of DEFAULT.
pub fn no_cause_of_methods()
    ensures { excluded.NoCauseOfMethods }
{}

/// A file with a normal form has a top.
pub fn no_cause_of_top()
    ensures { excluded.NoCauseOfTop }
{}

/// In a file with a normal form no call leads back to the method that makes it.
pub fn no_cause_of_calls()
    ensures { excluded.NoCauseOfCalls }
{}

/// A file with a normal form passes no limit on call chains, formats and messages.
pub fn no_cause_of_limits()
    ensures { excluded.NoCauseOfLimits }
{}

/// In a file with a normal form no method is too wide, and no expression lacks a range or asks for too wide a value.
pub fn no_cause_of_bounds()
    ensures { excluded.NoCauseOfBounds }
{}

/// A file with a normal form has no cause for a fault.
pub fn no_cause()
    ensures { excluded.NoCause }
{}

/// Octets with a reading are refused only where memory is out: no fault of the text, its tokens, its grammar or its tree is there.
pub fn no_refusal()
    ensures { excluded.NoRefusal }
{}
