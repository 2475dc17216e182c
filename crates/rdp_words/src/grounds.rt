// The numbered grounds of documents 01 and 02, and what a refusal says: its ground and its place.
ghost use Rattle.std.specs.Prelude.{◌≡◌, MatchResult};
ghost use Rattle.rdp_words.specs.Grounds.{number_of, IsNoGround};

// The grounds, in the order of their numbers: 1 is the first.
#[derive(Clone, Copy, Debug, PartialEq, Eq)]
pub enum Ground {
    // Document 01: of the list.
    TooLong,
    NotWords,
    // Of a command.
    Cut,
    AfterSyncFull,
    Unset,
    FillOnFourBits,
    LoadMissing,
    TileMissing,
    PipeMissing,
    // Of an act.
    NotDrawn,
    Unaligned,
    OutsideMemory,
    // Of what is lent, and of encoding.
    WorkTooShort,
    OutputTooShort,
    NotEncodable,
    // #106: copy mode.
    NoTextureMemory,
    NotRgba16,
    OutsideTexture,
    // #107
    Unassigned,
    // #108: display lists.
    NoCommand,
    TooManyCommands,
    Unknown,
    Invalid,
    // #111: the index.
    NotAtPlace,
    OtherLength,
    NoEntry,
    // #113
    Unviewable,
    // #103
    Damaged,
}

impl From<Ground> for u32 {
    ghost from_gives = { λ g number. number ≡ number_of g };

    fn from(ground: Ground) -> u32 {
        match ground {
            Ground::TooLong => 1,
            Ground::NotWords => 2,
            Ground::Cut => 3,
            Ground::AfterSyncFull => 4,
            Ground::Unset => 5,
            Ground::FillOnFourBits => 6,
            Ground::LoadMissing => 7,
            Ground::TileMissing => 8,
            Ground::PipeMissing => 9,
            Ground::NotDrawn => 10,
            Ground::Unaligned => 11,
            Ground::OutsideMemory => 12,
            Ground::WorkTooShort => 13,
            Ground::OutputTooShort => 14,
            Ground::NotEncodable => 15,
            Ground::NoTextureMemory => 16,
            Ground::NotRgba16 => 17,
            Ground::OutsideTexture => 18,
            Ground::Unassigned => 19,
            Ground::NoCommand => 20,
            Ground::TooManyCommands => 21,
            Ground::Unknown => 22,
            Ground::Invalid => 23,
            Ground::NotAtPlace => 24,
            Ground::OtherLength => 25,
            Ground::NoEntry => 26,
            Ground::Unviewable => 27,
            Ground::Damaged => 28,
        }
    }
}

// Of a number that no ground has.
#[derive(Clone, Copy, Debug, PartialEq, Eq)]
pub struct NoGround;

impl TryFrom<u32> for Ground {
    type Error = NoGround;

    ghost try_from_gives = { λ number result. MatchResult result (λ g. number_of g ≡ number) (λ _. IsNoGround number) };

    fn try_from(number: u32) -> Result<Ground, NoGround> {
        Ok(match number {
            1 => Ground::TooLong,
            2 => Ground::NotWords,
            3 => Ground::Cut,
            4 => Ground::AfterSyncFull,
            5 => Ground::Unset,
            6 => Ground::FillOnFourBits,
            7 => Ground::LoadMissing,
            8 => Ground::TileMissing,
            9 => Ground::PipeMissing,
            10 => Ground::NotDrawn,
            11 => Ground::Unaligned,
            12 => Ground::OutsideMemory,
            13 => Ground::WorkTooShort,
            14 => Ground::OutputTooShort,
            15 => Ground::NotEncodable,
            16 => Ground::NoTextureMemory,
            17 => Ground::NotRgba16,
            18 => Ground::OutsideTexture,
            19 => Ground::Unassigned,
            20 => Ground::NoCommand,
            21 => Ground::TooManyCommands,
            22 => Ground::Unknown,
            23 => Ground::Invalid,
            24 => Ground::NotAtPlace,
            25 => Ground::OtherLength,
            26 => Ground::NoEntry,
            27 => Ground::Unviewable,
            28 => Ground::Damaged,
            _ => return Err(NoGround),
        })
    }
}

// Why a list or a command is refused, and where.
#[derive(Clone, Copy, Debug, PartialEq, Eq)]
pub struct Refusal {
    pub ground: Ground,
    pub place: u32,
}

// What many functions answer: a count of words or numbers, or the refusal.
pub type Answer = Result<u32, Refusal>;
