//! Laws of the definitions that the contracts cite. Each function does nothing: its contract is the law.
ghost use Rattle.stream_json.specs.Laws as laws;

/// An outer block reads back from its object, with its offsets.
#[tactic(auto, using(crate::proofs::OnLines::outers_read_back))]
pub fn outers_read_back()
    ensures { laws.OutersReadBack }
{}

/// Each object of a stream is one line, whatever an interpreter wrote.
#[tactic(auto, using(crate::proofs::OnLines::streams_are_lines))]
pub fn streams_are_lines()
    ensures { laws.StreamsAreLines }
{}
