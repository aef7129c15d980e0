// A station, the reports that it takes, and what it shows.
ghost use Rattle.std.specs.Prelude.{◌≡◌};
ghost use Rattle.rules.specs.Answers.{answer_of, taken};
ghost use Rattle.rules.specs.Aspect.{aspect_of, presence_of};
ghost use Rattle.rules.specs.Heads.{head_outputs, heads_of};
ghost use Rattle.rules.specs.Outputs.{outputs_of};
ghost use Rattle.rules.specs.Printer.{zones_of};
ghost use Rattle.rules.specs.Station.{made};

use rules::{
    DONE, HeadOutputs, Made, Report, Settings, Station, Taken, TrackPresence, ZoneDigits,
    answer_number,
};

// What each head shows: nine output bits.
#[repr(C)]
#[derive(Clone, Copy)]
pub struct Heads {
    pub outputs: HeadOutputs,
}

// 0 where any track occupies the island, else 1, in island order.
#[repr(C)]
#[derive(Clone, Copy)]
pub struct Zones {
    pub digits: ZoneDigits,
}

// Whether a track counts for the greatest risk.
#[repr(C)]
#[derive(Clone, Copy)]
pub struct Presence {
    pub tracks: TrackPresence,
}

// A fresh station. Where the settings are refused with 8, one of the least settings.
#[unsafe(no_mangle)]
pub extern "C" fn degvuurel_make(settings: Settings) -> Made
    ensures { result ≡ made settings }
{
    match station::make(settings) {
        Ok(station) => Made {
            answer: DONE,
            station,
        },
        Err(refusal) => Made {
            answer: refusal.into(),
            station: station::least_station(),
        },
    }
}

// Takes a report, or refuses it and returns the old station.
#[unsafe(no_mangle)]
#[tactic(auto, unfolding(rules::specs::Answers::taken))]
pub extern "C" fn degvuurel_take(mut station: Station, report: Report) -> Taken
    ensures { result ≡ taken station report }
{
    let answer = answer_number(reports::follow(&mut station, report));
    Taken { answer, station }
}

// The number that a report is answered with, 0 to 8.
#[unsafe(no_mangle)]
pub extern "C" fn degvuurel_answer(station: Station, report: Report) -> u8
    ensures { result ≡ answer_of station report }
{
    answer_number(reports::answer_to(&station, report))
}

// The aspect, 0 to 5. A station whose settings are outside their limits shows 5.
#[unsafe(no_mangle)]
pub extern "C" fn degvuurel_aspect(station: Station) -> u8
    ensures { result ≡ aspect_of station }
{
    station::aspect(station).into()
}

// What each head shows.
#[unsafe(no_mangle)]
pub extern "C" fn degvuurel_heads(station: Station) -> Heads
    ensures { result ≡ record { outputs = heads_of station } }
{
    Heads {
        outputs: station::heads(station),
    }
}

// The five zone digits.
#[unsafe(no_mangle)]
pub extern "C" fn degvuurel_zones(station: Station) -> Zones
    ensures { result ≡ record { digits = zones_of station } }
{
    Zones {
        digits: station::zones(station),
    }
}

// Which tracks count for the greatest risk.
#[unsafe(no_mangle)]
pub extern "C" fn degvuurel_presence(station: Station) -> Presence
    ensures { result ≡ record { tracks = presence_of station } }
{
    Presence {
        tracks: station::presence(station),
    }
}

// The nine output bits of an aspect; a number above 5 gives 0.
#[unsafe(no_mangle)]
pub extern "C" fn degvuurel_outputs(aspect: u8) -> u16
    ensures { result ≡ outputs_of aspect }
{
    signal::outputs(aspect)
}

// What a head in this condition shows of the outputs.
#[unsafe(no_mangle)]
pub extern "C" fn degvuurel_head(outputs: u16, condition: u16) -> u16
    ensures { result ≡ head_outputs outputs condition }
{
    signal::head(outputs, condition)
}
