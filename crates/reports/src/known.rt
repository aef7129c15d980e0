// A report of a kind that there is.
ghost use Rattle.std.specs.Prelude.{◌≡◌, IfErr, IfOk};
ghost use Rattle.reports.specs.Known.{meaning};
ghost use Rattle.rules.specs.Answers.{names_island};
ghost use Rattle.rules.specs.Kinds.{kind_of, no_kind};
ghost use Rattle.rules.specs.declared.Refusal as Refusal;

use rules::{Kind, Refusal, Report};

// A report, and what the number of its kind means, so that it is looked up once.
#[derive(Clone, Copy)]
pub(crate) struct Known {
    pub kind: Kind,
    pub report: Report,
    ghost its_kind: { meaning kind ≡ kind_of report.kind },
}

impl Known {
    // Any other kind is refused with 1.
    #[inline(always)]
    pub(crate) fn of(report: Report) -> Result<Self, Refusal>
        ensures refused { IfErr result (λ refusal. (refusal ≡ Refusal.NoSuchKind) × (kind_of report.kind ≡ no_kind)) }
        ensures kept { IfOk result (λ known. known.report ≡ report) }
    {
        let kind = Kind::try_from(report.kind)?;
        Ok(Self { kind, report })
    }

    // Whether it names a track and an island.
    pub(crate) fn names_island(self) -> bool
        ensures { result ≡ names_island (kind_of self.report.kind) }
    {
        match self.kind {
            Kind::IslandOccupied
            | Kind::IslandFree
            | Kind::DetectorFailed
            | Kind::DetectorRestored => true,
            Kind::Clock | Kind::HeadCondition | Kind::Normalise => false,
        }
    }
}
