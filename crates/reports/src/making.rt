// Document 01, "Reports": a report of each kind. What the table of kinds shows as 0, and spare, is 0.
// What is handed in is not looked at: whether the station has the track, island or head, and takes
// the value, the report's answer says.
ghost use Rattle.std.specs.Prelude.{◌≡◌};
ghost use Rattle.rules.specs.OfEachKind.{clock, condition, failed, freed, normalised, occupied, report, restored};

use rules::{Kind, Report};

// Island occupied.
pub fn occupied(track: u8, island: u8) -> Report
    ensures { result ≡ occupied track island }
{
    report(Kind::IslandOccupied.into(), track, island, 0, 0)
}

// Island free.
pub fn freed(track: u8, island: u8) -> Report
    ensures { result ≡ freed track island }
{
    report(Kind::IslandFree.into(), track, island, 0, 0)
}

// Clock: so many ticks have gone.
pub fn clock(ticks: u16) -> Report
    ensures { result ≡ clock ticks }
{
    report(Kind::Clock.into(), 0, 0, 0, ticks)
}

// Detector failed.
pub fn failed(track: u8, island: u8) -> Report
    ensures { result ≡ failed track island }
{
    report(Kind::DetectorFailed.into(), track, island, 0, 0)
}

// Detector restored.
pub fn restored(track: u8, island: u8) -> Report
    ensures { result ≡ restored track island }
{
    report(Kind::DetectorRestored.into(), track, island, 0, 0)
}

// Head condition: which parts of a head have failed.
pub fn condition(head: u8, parts: u16) -> Report
    ensures { result ≡ condition head parts }
{
    report(Kind::HeadCondition.into(), head, 0, 0, parts)
}

// Normalise.
pub fn normalise() -> Report
    ensures { result ≡ normalised }
{
    report(Kind::Normalise.into(), 0, 0, 0, 0)
}

// Any six bytes, of whatever kind.
pub fn report(kind: u8, a: u8, b: u8, spare: u8, value: u16) -> Report
    ensures { result ≡ report kind a b spare value }
{
    Report {
        kind,
        a,
        b,
        spare,
        value,
    }
}
