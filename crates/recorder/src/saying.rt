// What the lines of a text have said so far, and what one line more makes of it.
ghost use Rattle.std.specs.Prelude.{◌≡◌, ◌<◌};
ghost use Rattle.recorder.specs.Saying.{SaidWith, setting_line};
ghost use Rattle.rules.specs.Answered.{given};
ghost use Rattle.rules.specs.Screen.{provided};
ghost use Rattle.rules_plan.specs.Answered.{said_line, setting_number};
ghost use Rattle.rules_plan.specs.Faults.{all_given, with_setting};
ghost use Rattle.rules_plan.specs.Lines.{is_report};

use rules::{MOST, Report, Settings};
use rules_plan::{Fault, Said, Setting, Spoken, Word};

pub(crate) fn all_given(said: Said) -> bool
    ensures { result ≡ all_given said }
{
    said.given.iter().all(|&given| given)
}

// The report that a line says, if it says one.
pub(crate) fn report_in(found: Spoken) -> Option<Report>
    ensures { given result ≡ provided (is_report (said_line found)) found.numbers }
{
    match found.word {
        Some(Word::Report(_)) => Some(found.numbers),
        _ => None,
    }
}

// What has been said with one line more, or what is wrong with the line after what was said before it: its words by
// themselves come first.
#[tactic(auto, using(crate::proofs::LineFaults::lines_said))]
pub(crate) fn with_line(said: Said, found: Spoken) -> Result<Said, Fault>
    ensures { SaidWith said (said_line found) result }
{
    found.understood?;
    match found.word {
        Some(Word::Setting(setting)) => with_setting(said, setting, found.numbers),
        Some(Word::Report(_)) if !all_given(said) => Err(Fault::SettingsMissing),
        Some(Word::Report(_)) if MOST <= said.reports => Err(Fault::TooManyReports),
        Some(Word::Report(_)) => Ok(Said {
            reports: said.reports + 1,
            ..said
        }),
        Some(Word::Other) | None => Ok(said),
    }
}

#[tactic(auto, using(crate::proofs::LineFaults::settings_said))]
fn with_setting(said: Said, setting: Setting, numbers: Report) -> Result<Said, Fault>
    ensures { SaidWith said (setting_line setting numbers) result }
{
    if 0 < said.reports {
        return Err(Fault::LateSetting);
    }
    let mut given = said.given;
    let place = place_of(setting);
    if given[place] {
        return Err(Fault::SetAlready);
    }
    given[place] = true;
    let settings = set(said.settings, setting, numbers);
    let next = Said {
        given,
        settings,
        ..said
    };
    if all_given(next) && !islands::within_limits(settings) {
        return Err(Fault::SettingsOutside);
    }
    Ok(next)
}

// The place of a setting among the six.
fn place_of(setting: Setting) -> usize
    ensures value { result ≡ setting_number setting }
    ensures upper_bound { result < 6 }
{
    setting as usize
}

// The settings with one of them as a line has it.
#[tactic(auto, unfolding(rules_plan::specs::Faults::with_setting))]
fn set(settings: Settings, setting: Setting, numbers: Report) -> Settings
    ensures { result ≡ with_setting settings (setting_line setting numbers) }
{
    let mut next = settings;
    match setting {
        Setting::Tracks => next.tracks = numbers.a,
        Setting::T1 => next.t1 = numbers.value,
        Setting::T2 => next.t2 = numbers.value,
        Setting::T3 => next.t3 = numbers.value,
        Setting::T4 => next.t4 = numbers.value,
        Setting::T5 => next.t5 = numbers.value,
    }
    next
}
