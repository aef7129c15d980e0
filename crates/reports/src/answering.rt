// Document 01, "The numbers it answers": the tests of a report, in their order.
ghost use Rattle.std.specs.Prelude.{◌≡◌, IfOk};
ghost use Rattle.reports.specs.Known.{number_in};
ghost use Rattle.rules.specs.Answered.{answered};
ghost use Rattle.rules.specs.Answers.{already, answer_of, form_answer, place_answer, state_answer, wrong_fields};
ghost use Rattle.rules.specs.Kinds.{kind_of};

use crate::known::Known;
use rules::{EVERY_PART_FAILED, Island, Kind, Refusal, Report, Station};

// Whether a report is accepted, or what it is refused with.
pub fn answer(station: Station, report: Report) -> Result<(), Refusal>
    ensures { answered result ≡ answer_of station report }
{
    answer_to(&station, report)
}

// The same of a station that is lent: one that is handed over is copied.
pub fn answer_to(station: &Station, report: Report) -> Result<(), Refusal>
    ensures { answered result ≡ answer_of station.now report }
{
    accepted(station, report)?;
    Ok(())
}

// The same, with what is known then of a report that is accepted.
#[tactic(auto, using(crate::proofs::Asked::in_order), unfolding(rules::specs::Answers::answer_of))]
pub(crate) fn accepted(station: &Station, report: Report) -> Result<Known, Refusal>
    ensures answer { number_in result ≡ answer_of station.now report }
    ensures kept { IfOk result (λ known. known.report ≡ report) }
{
    station::settings_answer(station.settings)?;
    let known = Known::of(report)?;
    known.form_answer()?;
    known.place_answer(station)?;
    known.state_answer(station)?;
    Ok(known)
}

impl Known {
    // 2: a field that no report of this kind has.
    #[tactic(auto, using(crate::proofs::Asked::form))]
    fn form_answer(self) -> Result<(), Refusal>
        ensures { answered result ≡ form_answer self.report }
    {
        if self.report.spare != 0 || self.has_wrong_fields() {
            return Err(Refusal::BadField);
        }
        Ok(())
    }

    fn has_wrong_fields(self) -> bool
        ensures { result ≡ wrong_fields (kind_of self.report.kind) self.report }
    {
        let Report { a, b, value, .. } = self.report;
        match self.kind {
            Kind::Clock => a != 0 || b != 0 || value == 0,
            Kind::HeadCondition => b != 0 || EVERY_PART_FAILED < value,
            Kind::Normalise => a != 0 || b != 0 || value != 0,
            Kind::IslandOccupied
            | Kind::IslandFree
            | Kind::DetectorFailed
            | Kind::DetectorRestored => value != 0,
        }
    }

    // 3, 5 or 4: a track, head or island that the station does not have.
    #[tactic(auto, using(chains::proofs::Chains::in_order), unfolding(rules::specs::Answers::place_answer))]
    fn place_answer(self, station: &Station) -> Result<(), Refusal>
        ensures { answered result ≡ place_answer station.now self.report }
    {
        let Report { a, b, .. } = self.report;
        match self.kind {
            Kind::HeadCondition if 1 < a => Err(Refusal::NoSuchHead),
            Kind::HeadCondition | Kind::Clock | Kind::Normalise => Ok(()),
            _ if station.settings.tracks <= a => Err(Refusal::NoSuchTrack),
            _ if 4 < b => Err(Refusal::NoSuchIsland),
            _ => Ok(()),
        }
    }

    // 6 or 7: what the station as it is refuses.
    #[inline(always)]
    #[tactic(auto, using(chains::proofs::Chains::in_order), unfolding(rules::specs::Answers::state_answer))]
    fn state_answer(self, station: &Station) -> Result<(), Refusal>
        ensures { answered result ≡ state_answer station.now self.report }
    {
        let Report { a, b, .. } = self.report;
        if self.kind == Kind::Normalise && station::obstructed(station) {
            return Err(Refusal::NotClear);
        }
        if self.is_already(station::island_of(station, a, b)) {
            return Err(Refusal::AlreadySo);
        }
        Ok(())
    }

    fn is_already(self, island: Island) -> bool
        ensures { result ≡ already (kind_of self.report.kind) island }
    {
        match self.kind {
            Kind::IslandOccupied => island.occupied,
            Kind::IslandFree => !island.occupied,
            Kind::DetectorFailed => island.failed,
            Kind::DetectorRestored => !island.failed,
            Kind::Clock | Kind::HeadCondition | Kind::Normalise => false,
        }
    }
}
