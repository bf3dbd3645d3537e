//! The law of printing: what `print_trace` of kc_trace_text writes is read as the trace.

ghost use Rattle.kc_regions.specs.Description.{Description};
ghost use Rattle.kc_events.specs.declared.turn.Trace.{Trace};
ghost use Rattle.kc_trace_text.specs.Text.{text_of_trace};
ghost use Rattle.kc_trace_law.specs.Reads.{IsPrintable, Says};

/// Under each description the text of a trace has no fault, and its lines say the trace: the same start, and the same
/// turns on each processor that they meet.
pub fn printed_then_read()
    ensures says { (cfg : Description) (trace : Trace) → IsPrintable trace → Says cfg trace (text_of_trace trace) }
{}
