//! Laws of certificates and their text, each as a function with no body that a proof may cite by a call.

ghost use Rattle.cert_text.specs.Example as example;
ghost use Rattle.cert_text.specs.Laws as laws;

/// The text of a certificate that has each kind of line of the first version, and of one of the second version.
pub fn example_text()
    ensures first { example.IsPrinted }
    ensures second { example.ReferringIsPrinted }
{}

/// A text has at most one reading by a profile, and none where a line is at fault.
pub fn one_reading()
    ensures only { laws.OneReading }
    ensures no_fault { laws.FaultsExclude }
{}

/// One thing is due after lines, and a line that can't come next has one code.
pub fn one_code()
    ensures due { laws.OneDue }
    ensures code { laws.OneCode }
{}

/// The printed text of a certificate is read as that certificate and as no other one, and up to its limit it is refused only where memory is out.
pub fn text_reads_back()
    ensures reads { laws.ReadsBack }
    ensures only { laws.ReadsOnly }
    ensures no_fault { laws.NoBlame }
{}
