//! Laws of packing and unpacking.

ghost use Rattle.walk_engine.specs.Laws.{ReadBack};

/// What is written for an item, followed by any bits, is read as that item in the same context, and just its bits are taken. No fault is told of them but out of memory.
pub fn read_back()
    ensures { ReadBack }
{}
