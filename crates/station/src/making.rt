// Document 01, "What the station is": how a station is made.
ghost use Rattle.std.specs.Prelude.{◌≡◌};
ghost use Rattle.rules.specs.Answered.{answered, made_in};
ghost use Rattle.rules.specs.Station.{free_track, fresh_station, least_settings, made, settings_answer};

use rules::{Refusal, Settings, Station, Track};

// Whether the settings are within their limits; else 8.
#[tactic(auto, using(chains::proofs::Chains::in_order), unfolding(rules::specs::Station::settings_answer))]
pub fn settings_answer(settings: Settings) -> Result<(), Refusal>
    ensures { answered result ≡ settings_answer settings }
{
    if islands::within_limits(settings) {
        Ok(())
    } else {
        Err(Refusal::OutsideLimits)
    }
}

// A fresh station; settings outside their limits are refused with 8.
#[tactic(auto, unfolding(rules::specs::Station::made))]
pub fn make(settings: Settings) -> Result<Station, Refusal>
    ensures { made_in result ≡ made settings }
{
    settings_answer(settings)?;
    Ok(fresh_station(settings))
}

// A fresh station of the least settings: what stands where there is no other to return.
pub fn least_station() -> Station
    ensures { result ≡ fresh_station least_settings }
{
    let least = Settings {
        tracks: 1,
        t1: 1,
        t2: 1,
        t3: 1,
        t4: 1,
        t5: 2,
    };
    fresh_station(least)
}

#[tactic(auto, unfolding(rules::specs::Station::fresh_station))]
fn fresh_station(settings: Settings) -> Station
    ensures { result ≡ fresh_station settings }
{
    Station {
        settings,
        tracks: [free_track(); 4],
        hold: 0,
        fault: true,
        conditions: [0; 2],
    }
}

pub(crate) fn free_track() -> Track
    ensures { result ≡ free_track }
{
    Track {
        islands: [islands::FREE; 5],
    }
}
