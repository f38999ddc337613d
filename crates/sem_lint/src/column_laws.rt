//! Laws of columns, each as a function with no body that a proof may cite by a call.
ghost use Rattle.sem_lint.specs.ColumnLaws as laws;

/// In every filling of a format the bits of each column stand between its offsets, are as many as its width, and spell its constant.
pub fn columns_are_offsets()
    ensures { laws.ColumnsAreOffsets }
{}

/// Where a column has one offset and one width, its bits are just those that stand there.
pub fn fields_stand_there()
    ensures { laws.FieldsStandThere }
{}
