// Why the record of a run can be believed, over every meaning that keeps its ranges and laws and every well-formed file.
// Each function stands here for its contract, which is the theorem.
ghost use Rattle.runs.specs.Faithful.{ReadingsTellActs, EveryRecordIsATrace, EveryTraceIsRecorded, EveryTicketIsCounted, EveryCallHasOneOutcome, Faithful, ForAllFiles};

// What is read of an event tells its act.
pub fn readings_tell_acts()
    ensures { ReadingsTellActs }
{}

// At every point of every history the record, ended at the clock, is a timed trace of the file's goal.
pub fn every_record_is_a_trace()
    ensures { ForAllFiles EveryRecordIsATrace }
{}

// Every timed trace of the goal is recorded by some run, or followed until the call that it needs next meets a limit.
pub fn every_trace_is_recorded()
    ensures { ForAllFiles EveryTraceIsRecorded }
{}

// Totals are the counts over the history by cause, and no ticket is lost or counted twice.
pub fn every_ticket_is_counted()
    ensures { ForAllFiles EveryTicketIsCounted }
{}

// At every state of a history each call has exactly one answer and next state.
pub fn every_call_has_one_outcome()
    ensures { ForAllFiles EveryCallHasOneOutcome }
{}

// All of these together.
pub fn every_run_is_faithful()
    ensures { ForAllFiles Faithful }
{}
