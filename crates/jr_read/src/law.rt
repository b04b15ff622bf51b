// The law of sizes.
ghost use Rattle.jr_read.specs.Reading.{ReadFilesAreSmall};

/// No file of a program that was read, and none of its prelude, has 2³² bytes.
pub fn read_files_are_small()
    ensures { ReadFilesAreSmall }
{}
