// A report in the planner's words: what is shown can be typed into a text again.
use rules::{Kind, Report};
use std::io;

// In the words of its kind, where all that its kind has as 0 is 0.
pub(crate) fn report(rt: &impl Print, said: Report) -> io::Result<()> {
    let only_places = said.spare == 0 && said.value == 0;
    let only_value = said.b == 0 && said.spare == 0;
    match Kind::try_from(said.kind) {
        Ok(Kind::IslandOccupied) if only_places => placed(rt, "occupied", said),
        Ok(Kind::IslandFree) if only_places => placed(rt, "free", said),
        Ok(Kind::DetectorFailed) if only_places => placed(rt, "failed", said),
        Ok(Kind::DetectorRestored) if only_places => placed(rt, "restored", said),
        Ok(Kind::Clock) if said.a == 0 && only_value => {
            println!(rt; "report    clock {}", said.value)
        }
        Ok(Kind::HeadCondition) if only_value => {
            println!(rt; "report    head {} {}", said.a, said.value)
        }
        Ok(Kind::Normalise) if said.a == 0 && only_value && said.value == 0 => {
            println!(rt; "report    normalise")
        }
        _ => in_numbers(rt, said),
    }
}

// A track and an island.
fn placed(rt: &impl Print, word: &str, said: Report) -> io::Result<()> {
    print!(rt; "report    {word}")?;
    println!(rt; " {} {}", said.a, said.b)
}

fn in_numbers(rt: &impl Print, said: Report) -> io::Result<()> {
    println!(rt;
        "report    report {} {} {} {} {}",
        said.kind, said.a, said.b, said.spare, said.value
    )
}
