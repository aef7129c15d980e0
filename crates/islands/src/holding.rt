// Document 01, "Reports": the hold.
ghost use Rattle.std.specs.Prelude.{◌≡◌, cond};

// If the greatest-risk condition is true, the hold is set to T4.
pub fn held_up(risk: bool, t4: u16, hold: u16) -> u16
    ensures { result ≡ cond risk t4 hold }
{
    if risk { t4 } else { hold }
}
