//! Laws of what is counted, each as a function with no body that a proof may cite by a call.
ghost use Rattle.tool_items.specs.Laws.{FieldsAddUp, FormatsAddUp, InsidesAddUp};

/// The packed bits of a filling are those of its listed fields, added up.
pub fn fields_add_up()
    ensures { FieldsAddUp }
{}

/// The bits of fillings are those of their formats, added up.
pub fn formats_add_up()
    ensures { FormatsAddUp }
{}

/// The bits of a field that calls a method are those of the fillings inside it, added up.
pub fn insides_add_up()
    ensures { InsidesAddUp }
{}
