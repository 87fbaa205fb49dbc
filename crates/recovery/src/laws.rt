//! Laws of the definitions that the contracts cite. Each function does nothing: its contract is the
//! law.
ghost use Rattle.recovery.specs.Laws.{AllowedHaveCode, LongestRescue, OneListOfOps, OneOp, OneRefusal, OneRescue, OneSheet, ReceivedAnswersFit, RescueOfWhole, RewritesAreShort, SheetImageOpens};

/// No two ops have one payload.
pub fn one_op()
    ensures { OneOp }
{}

/// Each op that a worksheet of allowed ops allows has a payload, as `encode` and `code_len` ask.
pub fn allowed_have_code()
    ensures { AllowedHaveCode }
{}

/// A disk stands for the payloads of one list of allowed ops at most.
pub fn one_list_of_ops()
    ensures { OneListOfOps }
{
    journal::laws::one_list();
}

/// A disk is the image of one worksheet at most.
pub fn one_sheet()
    ensures { OneSheet }
{
    journal::laws::one_list();
}

/// A disk is damaged at one gate at most, be it by the gates or by a payload that is refused.
pub fn one_refusal()
    ensures { OneRefusal }
{
    journal::laws::one_list();
    journal::laws::one_damage();
    journal::laws::no_damage();
}

/// A disk that is the image of a worksheet is refused for no cause that lies in its bytes.
pub fn sheet_image_opens()
    ensures { SheetImageOpens }
{
    journal::laws::one_list();
    journal::laws::standing_opens();
}

/// No list of allowed ops whose payloads stand at the front of a disk is longer than that of a rescue.
pub fn longest_rescue()
    ensures { LongestRescue }
{
    journal::laws::one_front();
}

/// A disk has one rescue at most.
pub fn one_rescue()
    ensures { OneRescue }
{
    journal::laws::one_front();
}

/// The rescue of a disk that is the image of a worksheet is that worksheet, and is whole.
pub fn rescue_of_whole()
    ensures { RescueOfWhole }
{
    journal::laws::one_front();
}

/// The ops that make a worksheet again fit records, so a checkpoint lacks nothing but room or memory.
pub fn rewrites_are_short()
    ensures { RewritesAreShort }
{}

/// An answer that was received within the limit of an outer block fits a record, with any prompt that
/// a worksheet allows: its block grows to at most one and a half times its length.
pub fn received_answers_fit()
    ensures { ReceivedAnswersFit }
{
    meta_format::canonical_growth();
    meta_format::output_length();
}
