// What the format promises of every sheet. Each function carries one theorem, its contract.
ghost use Rattle.sheets.specs.Laws.{AcceptedExactlyIfEncoded, ExactlyOneOutcome};

// A sheet is accepted with some rows exactly if its bytes are their encoding, and they keep every rule.
pub fn accepted_exactly_if_encoded()
    ensures { AcceptedExactlyIfEncoded }
{}

// Every sheet has exactly one outcome.
pub fn every_sheet_has_exactly_one_outcome()
    ensures { ExactlyOneOutcome }
{}
