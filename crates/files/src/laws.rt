// What the format promises of every file. Each function stands here for its contract, which is the law.
ghost use Rattle.files.specs.Laws.{ExactlyOneOutcome, AcceptedExactlyIfWellFormed, FilesAreReadBack};

// Over any meaning every file has exactly one outcome.
pub fn every_file_has_exactly_one_outcome()
    ensures { ExactlyOneOutcome }
{}

// Bytes are accepted as a file exactly if they are its encoding, and it is well-formed.
pub fn accepted_exactly_if_well_formed()
    ensures { AcceptedExactlyIfWellFormed }
{}

// The bytes of a file are read back as the file.
pub fn files_are_read_back()
    ensures { FilesAreReadBack }
{}
