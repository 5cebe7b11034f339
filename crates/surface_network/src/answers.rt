// What C is told of what a call gives: 0, 0 and its values, or the number and place of its refusal and 0 for each value. (Functions, not
// `From`: neither Result nor the structs are of this crate.)
ghost use Rattle.std.specs.Prelude.{◌≡◌};
ghost use Rattle.surface.specs.Refused.{outcome, sheet_of};
ghost use Rattle.survey.specs.Told.{counts_of};
ghost use Rattle.trial.specs.Told.{tried_of};
ghost use Rattle.ring.specs.Told.{ring_mark_of};
ghost use Rattle.lines.specs.Told.{next_told, line_told};
ghost use Rattle.survey_file.specs.Told.{size_of};

use retally::BeforeAfter;
use ring::Ringed;
use surface::{
    Answer, Counts, Entries, Next, Refusal, RingMark, Settings, Sheet, Size, TrialCounts,
};
use survey_file::Read;
use tally::Tally;

// sn_reshoot, sn_dales_and_hills, sn_joins_and_splits, sn_write_survey
pub(crate) fn answer_of(given: Result<(), Refusal>) -> Answer
    ensures { result ≡ outcome given }
{
    match given {
        Ok(()) => Answer { code: 0, place: 0 },
        Err(why) => why.into(),
    }
}

// sn_settings
pub(crate) fn sheet_of(given: Result<Settings, Refusal>) -> Sheet
    ensures { result ≡ sheet_of given }
{
    match given {
        Ok(said) => said.into(),
        Err(why) => {
            let Answer { code, place } = why.into();
            Sheet {
                code,
                place,
                rule: 0,
                named: 0,
            }
        }
    }
}

// sn_survey
pub(crate) fn counts_of(given: Result<Tally, Refusal>) -> Counts
    ensures { result ≡ counts_of given }
{
    match given {
        Ok(value) => Counts {
            code: 0,
            place: 0,
            peaks: value.peaks,
            pits: value.pits,
            saddles: value.saddles,
        },
        Err(why) => {
            let Answer { code, place } = why.into();
            Counts {
                code,
                place,
                peaks: 0,
                pits: 0,
                saddles: 0,
            }
        }
    }
}

// sn_trial
pub(crate) fn tried_of(given: Result<BeforeAfter, Refusal>) -> TrialCounts
    ensures { result ≡ tried_of given }
{
    match given {
        Ok(value) => TrialCounts {
            code: 0,
            place: 0,
            peaks: value.before.peaks,
            pits: value.before.pits,
            saddles: value.before.saddles,
            newPeaks: value.after.peaks,
            newPits: value.after.pits,
            newSaddles: value.after.saddles,
        },
        Err(why) => {
            let Answer { code, place } = why.into();
            TrialCounts {
                code,
                place,
                peaks: 0,
                pits: 0,
                saddles: 0,
                newPeaks: 0,
                newPits: 0,
                newSaddles: 0,
            }
        }
    }
}

// sn_ring
pub(crate) fn ring_mark_of(given: Result<Ringed, Refusal>) -> RingMark
    ensures { result ≡ ring_mark_of given }
{
    match given {
        Ok(value) => RingMark {
            code: 0,
            place: 0,
            k: value.k,
            mark: value.mark,
        },
        Err(why) => {
            let Answer { code, place } = why.into();
            RingMark {
                code,
                place,
                k: 0,
                mark: 0,
            }
        }
    }
}

// sn_next_down, sn_next_up
pub(crate) fn next_told(given: Result<u32, Refusal>) -> Next
    ensures { result ≡ next_told given }
{
    match given {
        Ok(value) => Next {
            code: 0,
            place: 0,
            post: value,
        },
        Err(why) => {
            let Answer { code, place } = why.into();
            Next {
                code,
                place,
                post: 0,
            }
        }
    }
}

// sn_thalweg, sn_ridge
pub(crate) fn line_told(given: Result<u32, Refusal>) -> Entries
    ensures { result ≡ line_told given }
{
    match given {
        Ok(value) => Entries {
            code: 0,
            place: 0,
            count: value,
        },
        Err(why) => {
            let Answer { code, place } = why.into();
            Entries {
                code,
                place,
                count: 0,
            }
        }
    }
}

// sn_read_survey
pub(crate) fn size_of(given: Result<Read, Refusal>) -> Size
    ensures { result ≡ size_of given }
{
    match given {
        Ok(value) => Size {
            code: 0,
            place: 0,
            rows: value.rows,
            columns: value.columns,
            east: value.spacings.east,
            south: value.spacings.south,
        },
        Err(why) => {
            let Answer { code, place } = why.into();
            Size {
                code,
                place,
                rows: 0,
                columns: 0,
                east: 0,
                south: 0,
            }
        }
    }
}
