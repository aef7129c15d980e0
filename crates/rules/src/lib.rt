// The paper: what document 01 speaks of, and its numbers by name, in its order. What it says of them
// is in specs/. Nothing runs here but conversions, since they have to stand beside their types: between
// an enum and its numbers or words, and of siting's numbers.
#![tactic(auto)]

ghost use Rattle.std.specs.Prelude.{◌≡◌, Err};
ghost use Rattle.rules.specs.Answered.{AspectNumbered, KindNumbered, RefusalNumbered, answered, aspect_number, kind_number, reading_in, received_in, refusal_number, sited_in, written_in};
ghost use Rattle.rules.specs.declared.Unread.TheVariants.{Refused};

use std::fmt;

// ---- "What the station is"

// The number of tracks, and the timers in ticks. A tick is a tenth of a second.
#[repr(C)]
#[derive(Clone, Copy, Default, PartialEq, Eq)]
pub struct Settings {
    pub tracks: u8,
    pub t1: u16,
    pub t2: u16,
    pub t3: u16,
    pub t4: u16,
    pub t5: u16,
}

// An island is free, or occupied with a mark and an age in ticks. Its detector may have failed.
#[repr(C)]
#[derive(Clone, Copy)]
pub struct Island {
    pub occupied: bool,
    pub leaving: bool,
    pub failed: bool,
    pub age: u16,
}

// Advance side 1, warning side 1, crossing, warning side 2, advance side 2.
#[repr(C)]
#[derive(Clone, Copy)]
pub struct Track {
    pub islands: [Island; 5],
}

// Up to four tracks, of which the settings' number count. The hold is what is left of T4, in ticks.
#[repr(C)]
#[derive(Clone, Copy)]
pub struct Station {
    pub settings: Settings,
    pub tracks: [Track; 4],
    pub hold: u16,
    pub fault: bool,
    pub conditions: [u16; 2],
}

// The answer to settings, and the station made of them.
#[repr(C)]
#[derive(Clone, Copy)]
pub struct Made {
    pub answer: u8,
    pub station: Station,
}

// ---- "Reports"

// Six bytes: the value has sixteen bits, low byte first.
#[repr(C)]
#[derive(Clone, Copy, Default)]
pub struct Report {
    pub kind: u8,
    pub a: u8,
    pub b: u8,
    pub spare: u8,
    pub value: u16,
}

// The kinds of report, by number.
#[derive(Clone, Copy, Debug, PartialEq, Eq)]
pub enum Kind {
    IslandOccupied = 1,
    IslandFree = 2,
    Clock = 3,
    DetectorFailed = 4,
    DetectorRestored = 5,
    HeadCondition = 6,
    Normalise = 7,
}

// The kind with a number, 1 to 7.
impl TryFrom<u8> for Kind {
    type Error = Refusal;

    ghost try_from_gives = { KindNumbered };

    #[tactic(auto, unfolding(crate::specs::Kinds::kind_of))]
    fn try_from(number: u8) -> Result<Self, Refusal> {
        match number {
            1 => Ok(Self::IslandOccupied),
            2 => Ok(Self::IslandFree),
            3 => Ok(Self::Clock),
            4 => Ok(Self::DetectorFailed),
            5 => Ok(Self::DetectorRestored),
            6 => Ok(Self::HeadCondition),
            7 => Ok(Self::Normalise),
            _ => Err(Refusal::NoSuchKind),
        }
    }
}

impl From<Kind> for u8 {
    ghost from_gives = { λ kind number. number ≡ kind_number kind };

    fn from(kind: Kind) -> Self {
        kind as u8
    }
}

// The answer to a report, and the station after it.
#[repr(C)]
#[derive(Clone, Copy)]
pub struct Taken {
    pub answer: u8,
    pub station: Station,
}

// ---- "From islands to aspect"

// The aspects, by number.
#[derive(Clone, Copy, Debug, PartialEq, Eq)]
pub enum Aspect {
    Permitted = 0,
    Clearing = 1,
    Forbidden = 2,
    GreatestRisk = 3,
    Surroundings = 4,
    OutOfService = 5,
}

// A number that no aspect has.
#[derive(Clone, Copy, Debug, PartialEq, Eq)]
pub struct NoSuchAspect(pub u8);

// The aspect with a number, 0 to 5.
impl TryFrom<u8> for Aspect {
    type Error = NoSuchAspect;

    ghost try_from_gives = { AspectNumbered };

    fn try_from(number: u8) -> Result<Self, NoSuchAspect> {
        match number {
            0 => Ok(Self::Permitted),
            1 => Ok(Self::Clearing),
            2 => Ok(Self::Forbidden),
            3 => Ok(Self::GreatestRisk),
            4 => Ok(Self::Surroundings),
            5 => Ok(Self::OutOfService),
            _ => Err(NoSuchAspect(number)),
        }
    }
}

// By name.
impl fmt::Display for Aspect {
    fn fmt<W: fmt::Write>(&self, f: &mut fmt::Formatter<W>) -> fmt::Result {
        f.write_str(match self {
            Self::Permitted => "permitted",
            Self::Clearing => "clearing",
            Self::Forbidden => "forbidden",
            Self::GreatestRisk => "greatest risk",
            Self::Surroundings => "trains in the surroundings",
            Self::OutOfService => "out of service",
        })
    }
}

impl From<Aspect> for u8 {
    ghost from_gives = { λ aspect number. number ≡ aspect_number aspect };

    fn from(aspect: Aspect) -> Self {
        aspect as u8
    }
}

// Whether a track counts for the greatest risk.
pub type TrackPresence = [bool; 4];

// Outputs are nine bits, bit 0 first. Verde fijo: green, steady.
pub const VF: u16 = 1 << 0;

// Verde intermitente: green, flashing.
pub const VI: u16 = 1 << 1;

// Naranja intermitente: orange, flashing.
pub const NI: u16 = 1 << 2;

// Rojo fijo: red, steady.
pub const RF: u16 = 1 << 3;

// R+: the board OTRO TREN.
pub const R_PLUS: u16 = 1 << 4;

// The sounders: S1 of VI, S2 of RF, S3 of R+, S4 of NI.
pub const S1: u16 = 1 << 5;

pub const S2: u16 = 1 << 6;

pub const S3: u16 = 1 << 7;

pub const S4: u16 = 1 << 8;

// ---- "The heads"

// A head condition marks failed parts: bits 0 to 3 green, orange, red, OTRO TREN board.
pub const GREEN_FAILED: u16 = 1 << 0;

pub const ORANGE_FAILED: u16 = 1 << 1;

pub const RED_FAILED: u16 = 1 << 2;

pub const BOARD_FAILED: u16 = 1 << 3;

// Bits 4 to 7 sounders S1 to S4.
pub const S1_FAILED: u16 = 1 << 4;

pub const S2_FAILED: u16 = 1 << 5;

pub const S3_FAILED: u16 = 1 << 6;

pub const S4_FAILED: u16 = 1 << 7;

// Bit 8 power; bit 9 communication.
pub const POWER_FAILED: u16 = 1 << 8;

pub const COMMUNICATION_FAILED: u16 = 1 << 9;

// 0 to 1023: the greatest condition that is taken, all ten.
pub const EVERY_PART_FAILED: u16 = 1023;

// What each head shows: nine output bits.
pub type HeadOutputs = [u16; 2];

// ---- "Siting"

// A time. No distance is ever taken for one: the two are types of their own.
#[repr(C)]
#[derive(Clone, Copy)]
pub struct Seconds(pub u16);

// A distance.
#[repr(C)]
#[derive(Clone, Copy)]
pub struct Decimetres(pub u32);

// An answer, 0 or 8, and the distance, which is 0 where the answer is not.
#[repr(C)]
#[derive(Clone, Copy)]
pub struct Sited {
    pub answer: u8,
    pub distance: Decimetres,
}

// Refused siting returns distance 0.
impl From<Result<Decimetres, Refusal>> for Sited {
    ghost from_gives = { λ outcome sited. sited ≡ sited_in outcome };

    fn from(outcome: Result<Decimetres, Refusal>) -> Self {
        match outcome {
            Ok(distance) => Self {
                answer: DONE,
                distance,
            },
            Err(refusal) => Self {
                answer: refusal.into(),
                distance: Decimetres(0),
            },
        }
    }
}

impl From<u16> for Seconds {
    ghost from_gives = { λ number seconds. seconds ≡ record { 0 = number } };

    fn from(seconds: u16) -> Self {
        Self(seconds)
    }
}

impl From<Seconds> for u16 {
    ghost from_gives = { λ seconds number. number ≡ seconds.0 };

    fn from(seconds: Seconds) -> Self {
        seconds.0
    }
}

impl From<u32> for Decimetres {
    ghost from_gives = { λ number decimetres. decimetres ≡ record { 0 = number } };

    fn from(decimetres: u32) -> Self {
        Self(decimetres)
    }
}

impl From<Decimetres> for u32 {
    ghost from_gives = { λ decimetres number. number ≡ decimetres.0 };

    fn from(decimetres: Decimetres) -> Self {
        decimetres.0
    }
}

// ---- "The register"

// The bytes of the header, the bytes of an entry, and the most entries that a register has.
pub const HEADER: usize = 16;

pub const ENTRY: usize = 8;

pub const MOST: usize = 8190;

// What reading or stepping returns: its answer, the entry that it names, how many entries were
// read, and the station after them.
#[repr(C)]
#[derive(Clone, Copy)]
pub struct Reading {
    pub answer: u8,
    pub entry: usize,
    pub count: usize,
    pub station: Station,
}

// What reading or stepping gives: how many entries were read, and the station after them.
#[derive(Clone, Copy)]
pub struct Replayed {
    pub count: usize,
    pub station: Station,
}

// Why there is nothing to read: a number of its own, or the first entry, counted from 1, whose answer or
// aspect is not what the replay gives.
#[derive(Clone, Copy, Debug, PartialEq, Eq)]
pub enum Unread {
    Refused(Refusal),
    NotReplayed { entry: usize },
}

impl Unread {
    // The number that is answered: 13 where an entry is named.
    pub fn number(self) -> u8
        ensures { result ≡ (reading_in (Err self)).answer }
    {
        match self {
            Self::Refused(refused) => refused.into(),
            Self::NotReplayed { .. } => NOT_REPLAYED,
        }
    }

    // The entry that is named, or 0.
    pub fn entry(self) -> usize
        ensures { result ≡ (reading_in (Err self)).entry }
    {
        match self {
            Self::Refused(_) => 0,
            Self::NotReplayed { entry } => entry,
        }
    }
}

impl From<Refusal> for Unread {
    ghost from_gives = { λ refusal unread. unread ≡ Refused refusal };

    fn from(refusal: Refusal) -> Self {
        Self::Refused(refusal)
    }
}

// ---- "The numbers it answers"

// 0 is done. 13 names an entry: an entry's answer or aspect isn't what the replay gives.
pub const DONE: u8 = 0;

pub const NOT_REPLAYED: u8 = 13;

// What a report, setting, register or text is refused with, by number. 13 names an entry: it is a case of
// Unread. The definitions have these names in specs/Numbers.antt.
#[derive(Clone, Copy, Debug, PartialEq, Eq)]
pub enum Refusal {
    NoSuchKind = 1,
    BadField = 2,
    NoSuchTrack = 3,
    NoSuchIsland = 4,
    NoSuchHead = 5,
    AlreadySo = 6,
    NotClear = 7,
    OutsideLimits = 8,
    NotARegister = 9,
    OtherVersion = 10,
    CutEntry = 11,
    NoRoom = 12,
    NoSuchRow = 14,
    NotJson = 15,
    BadMember = 16,
}

impl From<Refusal> for u8 {
    ghost from_gives = { λ refusal number. number ≡ refusal_number refusal };

    fn from(refusal: Refusal) -> Self {
        refusal as u8
    }
}

// A number that no refusal has.
#[derive(Clone, Copy, Debug, PartialEq, Eq)]
pub struct NoSuchRefusal(pub u8);

// The refusal with a number: 1 to 12 or 14 to 16.
impl TryFrom<u8> for Refusal {
    type Error = NoSuchRefusal;

    ghost try_from_gives = { RefusalNumbered };

    fn try_from(number: u8) -> Result<Self, NoSuchRefusal> {
        match number {
            1 => Ok(Self::NoSuchKind),
            2 => Ok(Self::BadField),
            3 => Ok(Self::NoSuchTrack),
            4 => Ok(Self::NoSuchIsland),
            5 => Ok(Self::NoSuchHead),
            6 => Ok(Self::AlreadySo),
            7 => Ok(Self::NotClear),
            8 => Ok(Self::OutsideLimits),
            9 => Ok(Self::NotARegister),
            10 => Ok(Self::OtherVersion),
            11 => Ok(Self::CutEntry),
            12 => Ok(Self::NoRoom),
            14 => Ok(Self::NoSuchRow),
            15 => Ok(Self::NotJson),
            16 => Ok(Self::BadMember),
            _ => Err(NoSuchRefusal(number)),
        }
    }
}

// In words, for whoever is refused.
impl fmt::Display for Refusal {
    fn fmt<W: fmt::Write>(&self, f: &mut fmt::Formatter<W>) -> fmt::Result {
        f.write_str(match self {
            Self::NoSuchKind => "no such kind of report",
            Self::BadField => "a field of the report is not as its kind has it",
            Self::NoSuchTrack => "no such track",
            Self::NoSuchIsland => "no such island",
            Self::NoSuchHead => "no such head",
            Self::AlreadySo => "occupied, free, failed or not failed already",
            Self::NotClear => "an island is occupied or a detector failed",
            Self::OutsideLimits => "a setting is outside its limits",
            Self::NotARegister => "not a register",
            Self::OtherVersion => "a register of another version",
            Self::CutEntry => "the last entry is cut",
            Self::NoRoom => "too many entries",
            Self::NoSuchRow => "no such row",
            Self::NotJson => "no text of a message",
            Self::BadMember => "a member of the message is missing, or outside its range",
        })
    }
}

// 0 where it is done, and otherwise what it is refused with.
pub fn answer_number(went: Result<(), Refusal>) -> u8
    ensures { result ≡ answered went }
{
    match went {
        Ok(()) => DONE,
        Err(refusal) => refusal.into(),
    }
}

// ---- "The matrix printer"

// 0 where any track occupies the island, else 1, in island order.
pub type ZoneDigits = [u8; 5];

// What a row of a sheet shows: its entry's number, the five zone digits in island order, the nine
// output bits, VF first, and the answer.
#[repr(C)]
#[derive(Clone, Copy)]
pub struct RowFields {
    pub entry: u64,
    pub zones: ZoneDigits,
    pub outputs: u16,
    pub answer: u8,
}

// ---- document 02, request 1: "Aspect to the passenger screens"

// Five digits for each track, in island order: 0 occupied, 1 free. Past the number of tracks they are 0.
pub type TrackDigits = [u8; 20];

// What the information desk is told.
#[repr(C)]
#[derive(Clone, Copy)]
pub struct Message {
    pub station: u16,
    pub aspect: u8,
    pub tracks: u8,
    pub digits: TrackDigits,
}

// What reading a text gives: an answer, 0, 15 or 16, and the message, which is zeros and no tracks
// where the answer is not 0.
#[repr(C)]
#[derive(Clone, Copy)]
pub struct Received {
    pub answer: u8,
    pub message: Message,
}

// What writing a message gives: an answer, 0, 16 or 12, and the length of the text, which is 0 where
// the answer is not.
#[repr(C)]
#[derive(Clone, Copy)]
pub struct Written {
    pub answer: u8,
    pub length: usize,
}

impl From<Result<Message, Refusal>> for Received {
    ghost from_gives = { λ outcome received. received ≡ received_in outcome };

    fn from(outcome: Result<Message, Refusal>) -> Self {
        match outcome {
            Ok(message) => Self {
                answer: DONE,
                message,
            },
            Err(refusal) => Self {
                answer: refusal.into(),
                message: Message {
                    station: 0,
                    aspect: 0,
                    tracks: 0,
                    digits: [0; 20],
                },
            },
        }
    }
}

impl From<Result<usize, Refusal>> for Written {
    ghost from_gives = { λ outcome written. written ≡ written_in outcome };

    fn from(outcome: Result<usize, Refusal>) -> Self {
        match outcome {
            Ok(length) => Self {
                answer: DONE,
                length,
            },
            Err(refusal) => Self {
                answer: refusal.into(),
                length: 0,
            },
        }
    }
}
