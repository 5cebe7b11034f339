// What the calls share: their answers, the grid that the functions below them work on, and the numbers of docs/SPECIFICATION.md by name.
#![tactic(auto)]

ghost use Rattle.std.specs.Prelude.{◌≡◌, not, [], ◌∷◌, Ok};
ghost use Rattle.surface.specs.Refusals.{verdict};
ghost use Rattle.surface.specs.Refused.{refused, outcome, row_for, rule_number, Ruled, sheet_of};

// The version of the library, which sn_version and the lister tell. The header has it too, and the tests hold the two to each other.
pub const VERSION_MAJOR: u32 = 4;

pub const VERSION_MINOR: u32 = 2;

pub const VERSION_PATCH: u32 = 0;

// The most rows or columns that a plot may have, and the most posts.
pub const MAX_SIDE: usize = 120;

pub const MAX_POSTS: usize = 14400;

// The lowest and the highest height, in millimetres.
pub const LOWEST: i32 = -1000000;

pub const HIGHEST: i32 = 1000000;

// The virtual pit, as lists and answers have it.
pub const VIRTUAL_PIT: usize = 65535;

// The marks of a peak and of a pit, and the first mark of a saddle: bytes of the lists that C lends.
pub const PEAK: u8 = 1;

pub const PIT: u8 = 2;

pub const SADDLE: u8 = 3;

// The bytes of a ring's list, and of a name's.
pub const RING_LENGTH: usize = 8;

pub const NAME_LENGTH: usize = 32;

// The rules by which cells are cut, through their lowest posts, 1 in a sheet, and through their highest, 2; and the one where nothing is said.
#[derive(Clone, Copy)]
pub enum Rule {
    Lowest,
    Highest,
}

pub const DEFAULT_RULE: Rule = Rule::Highest;

// Its number, and the rule that a byte of a sheet names.
impl From<Rule> for u32 {
    ghost from_gives = { λ rule number. number ≡ rule_number rule };

    fn from(rule: Rule) -> u32 {
        match rule {
            Rule::Lowest => 1,
            Rule::Highest => 2,
        }
    }
}

impl TryFrom<u8> for Rule {
    type Error = Refusal;

    ghost try_from_gives = { λ byte result. Ruled byte result };

    fn try_from(byte: u8) -> Result<Rule, Refusal> {
        match byte {
            1 => Ok(Rule::Lowest),
            2 => Ok(Rule::Highest),
            _ => Err(Refusal::BadEntry),
        }
    }
}

// Which way a walk goes: down to a pit or up to a peak. (Bools: constants at each call, so that the compiler makes a loop of its own for each way.)
pub const DOWN: bool = false;

pub const UP: bool = true;

// The least and the greatest spacing, in centimetres.
pub const MIN_SPACING: u32 = 1;

pub const MAX_SPACING: u32 = 1000;

// The spacings, in centimetres: how far east the next post of a row stands, and how far south the next post of a column. (C has them as along_row and
// along_column.)
#[derive(Clone, Copy)]
pub struct Spacings {
    pub east: u32,
    pub south: u32,
}

// The sides of a plot whose heights are lent beside it, and whether its cells are cut through their highest posts.
#[derive(Clone, Copy)]
pub struct Grid {
    pub rows: usize,
    pub columns: usize,
    pub highest: bool,
}

// What a settings sheet says: the rule, and how many bytes the plot's name has.
#[derive(Clone, Copy)]
pub struct Settings {
    pub rule: Rule,
    pub named: u32,
}

// As C is told.
impl From<Settings> for Sheet {
    ghost from_gives = { λ said sheet. sheet ≡ sheet_of (Ok said) };

    fn from(said: Settings) -> Sheet {
        Sheet {
            code: 0,
            place: 0,
            rule: said.rule.into(),
            named: said.named,
        }
    }
}

// Why a call is refused: the rows of the table in docs/SPECIFICATION.md, "Refusals", from 1 to 15.
#[derive(Clone, Copy)]
pub enum Refusal {
    BadSides,
    BadHeightsLength,
    BadListLength,
    // the first such post
    HeightOutOfRange(u32),
    NoSuchPost,
    BadNewHeight,
    NotASaddle,
    NoSuchRun,
    LineTooLong,
    FileTooShort,
    BadVersion,
    BadCount,
    BadSheet,
    BadEntry,
    BadSpacing,
}

impl Refusal {
    // Refused for this unless a test passes.
    pub fn unless(self, passes: bool) -> Result<(), Refusal>
        ensures { outcome result ≡ verdict (row_for self (not passes) ∷ []) }
    {
        if passes { Ok(()) } else { Err(self) }
    }
}

// The number and the place that C is told.
impl From<Refusal> for Answer {
    ghost from_gives = { λ why answer. answer ≡ refused why };

    fn from(why: Refusal) -> Answer {
        let (code, place) = match why {
            Refusal::BadSides => (1, 0),
            Refusal::BadHeightsLength => (2, 0),
            Refusal::BadListLength => (3, 0),
            Refusal::HeightOutOfRange(post) => (4, post),
            Refusal::NoSuchPost => (5, 0),
            Refusal::BadNewHeight => (6, 0),
            Refusal::NotASaddle => (7, 0),
            Refusal::NoSuchRun => (8, 0),
            Refusal::LineTooLong => (9, 0),
            Refusal::FileTooShort => (10, 0),
            Refusal::BadVersion => (11, 0),
            Refusal::BadCount => (12, 0),
            Refusal::BadSheet => (13, 0),
            Refusal::BadEntry => (14, 0),
            Refusal::BadSpacing => (15, 0),
        };
        Answer { code, place }
    }
}

// What every call answers: the refusal's number and place, 0 and 0 where it was accepted, and then its values, all 0 where it was refused.
#[repr(C)]
#[derive(Clone, Copy)]
pub struct Answer {
    pub code: u32,
    pub place: u32,
}

// sn_settings, and what every call makes of its settings sheet: the rule, and how many bytes the plot's name has
#[repr(C)]
#[derive(Clone, Copy)]
pub struct Sheet {
    pub code: u32,
    pub place: u32,
    pub rule: u32,
    pub named: u32,
}

// sn_survey
#[repr(C)]
#[derive(Clone, Copy)]
pub struct Counts {
    pub code: u32,
    pub place: u32,
    pub peaks: u32,
    pub pits: u32,
    pub saddles: u32,
}

// sn_trial: the counts that hold, and those that would hold. (C has the last three as new_peaks, new_pits and new_saddles.)
#[repr(C)]
#[derive(Clone, Copy)]
pub struct TrialCounts {
    pub code: u32,
    pub place: u32,
    pub peaks: u32,
    pub pits: u32,
    pub saddles: u32,
    pub newPeaks: u32,
    pub newPits: u32,
    pub newSaddles: u32,
}

// sn_ring
#[repr(C)]
#[derive(Clone, Copy)]
pub struct RingMark {
    pub code: u32,
    pub place: u32,
    pub k: u32,
    pub mark: u32,
}

// sn_next_down, sn_next_up
#[repr(C)]
#[derive(Clone, Copy)]
pub struct Next {
    pub code: u32,
    pub place: u32,
    pub post: u32,
}

// sn_thalweg, sn_ridge
#[repr(C)]
#[derive(Clone, Copy)]
pub struct Entries {
    pub code: u32,
    pub place: u32,
    pub count: u32,
}

// sn_read_survey, with the spacings
#[repr(C)]
#[derive(Clone, Copy)]
pub struct Size {
    pub code: u32,
    pub place: u32,
    pub rows: u32,
    pub columns: u32,
    pub east: u32,
    pub south: u32,
}
