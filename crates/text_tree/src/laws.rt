//! What holds of the trees of all texts.

ghost use Rattle.text_tree.specs.Refused as laws;

/// A token list has at most one tree.
pub fn one_tree()
    ensures { laws.OneTree }
{}
