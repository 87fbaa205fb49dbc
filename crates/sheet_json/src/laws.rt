//! Laws of the definitions that the contracts cite. Each function does nothing: its contract is the law.
ghost use Rattle.sheet_json.specs.Laws as laws;

/// Bytes read back, whatever they are.
#[tactic(auto, using(crate::proofs::Back::bytes_read_back))]
pub fn bytes_read_back()
    ensures { laws.BytesReadBack }
{}

/// A block reads back, with all its tags and texts.
#[tactic(auto, using(crate::proofs::Back::blocks_read_back))]
pub fn blocks_read_back()
    ensures { laws.BlocksReadBack }
{}

/// A reply reads back, with its line.
#[tactic(auto, using(crate::proofs::Tellings::replies_read_back))]
pub fn replies_read_back()
    ensures { laws.RepliesReadBack }
{}

/// What comes of an interpreter reads back, with its session and its life.
#[tactic(auto, using(crate::proofs::Tellings::events_read_back))]
pub fn events_read_back()
    ensures { laws.EventsReadBack }
{}

/// A field reads back, with how it stands.
#[tactic(auto, using(crate::proofs::ReadFields::fields_read_back))]
pub fn fields_read_back()
    ensures { laws.FieldsReadBack }
{}

/// A session reads back.
#[tactic(auto, using(crate::proofs::ReadFields::sessions_read_back))]
pub fn sessions_read_back()
    ensures { laws.SessionsReadBack }
{}

/// The counts of an evaluation read back, and that the time of a field was over.
#[tactic(auto, using(crate::proofs::Tellings::counts_read_back))]
pub fn counts_read_back()
    ensures { laws.CountsReadBack }
{}

/// What a check tells reads back: what a field came to, the counts, the number that no field has, and the session whose
/// program isn't there.
#[tactic(auto, using(crate::proofs::ReadChecks::checks_read_back))]
pub fn checks_read_back()
    ensures { laws.ChecksReadBack }
{}

/// A worksheet in a format reads back, and that it has no text there.
#[tactic(auto, using(crate::proofs::Tellings::exports_read_back))]
pub fn exports_read_back()
    ensures { laws.ExportsReadBack }
{}

/// What a program tells has no float, no number of more than 64 bits, and nests 67 deep at most.
#[tactic(auto, using(crate::proofs::PlainValues::tellings_are_plain))]
pub fn tellings_are_plain()
    ensures { laws.TellingsArePlain }
{}

/// Lines one after another are cut in one way.
#[tactic(auto, using(crate::proofs::Apart::lines_apart))]
pub fn lines_apart()
    ensures { laws.LinesApart }
{}
