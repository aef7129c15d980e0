// What an aspect shows, and what a head with failed parts still shows of it.
#![tactic(auto)]

ghost use Rattle.std.specs.Prelude.{cond, ◌≡◌};
ghost use Rattle.rules.specs.Heads.{head_outputs};
ghost use Rattle.rules.specs.Outputs.{outputs_of};

use rules::{
    Aspect, BOARD_FAILED, COMMUNICATION_FAILED, GREEN_FAILED, NI, ORANGE_FAILED, POWER_FAILED,
    R_PLUS, RED_FAILED, RF, S1, S1_FAILED, S2, S2_FAILED, S3, S3_FAILED, S4, S4_FAILED, VF, VI,
};

const LAMPS: u16 = VF | VI | NI | RF | R_PLUS;

const SOUNDERS: u16 = S1 | S2 | S3 | S4;

const LAMP_FAILED: u16 = GREEN_FAILED | ORANGE_FAILED | RED_FAILED | BOARD_FAILED;

const SOUNDER_FAILED: u16 = S1_FAILED | S2_FAILED | S3_FAILED | S4_FAILED;

// The nine output bits of an aspect; a number above 5 gives 0.
#[tactic(auto, using(crate::proofs::Paper::above_five), unfolding(rules::specs::Outputs::outputs_of))]
pub fn outputs(aspect: u8) -> u16
    ensures { result ≡ outputs_of aspect }
{
    match Aspect::try_from(aspect) {
        Ok(Aspect::Permitted) => VF,
        Ok(Aspect::Clearing) => VI | S1,
        Ok(Aspect::Forbidden) => RF | S2,
        Ok(Aspect::GreatestRisk) => RF | R_PLUS | S3,
        Ok(Aspect::Surroundings) => NI | S4,
        Ok(Aspect::OutOfService) | Err(_) => 0,
    }
}

// What a head in this condition shows of the outputs.
pub fn head(outputs: u16, condition: u16) -> u16
    ensures { result ≡ head_outputs outputs condition }
{
    let dark = (condition & (POWER_FAILED | COMMUNICATION_FAILED)) != 0;
    let many = 1 < (condition & SOUNDER_FAILED).count_ones();
    if dark || many {
        return 0;
    }
    let lit = if (condition & LAMP_FAILED) == 0 {
        outputs & LAMPS
    } else {
        0
    };
    let silent = silenced((condition & S1_FAILED) != 0, S1)
        | silenced((condition & S2_FAILED) != 0, S2)
        | silenced((condition & S3_FAILED) != 0, S3)
        | silenced((condition & S4_FAILED) != 0, S4);
    let heard = outputs & SOUNDERS & !silent;
    lit | heard
}

// The sounder where it has failed, and nothing where it has not.
fn silenced(failed: bool, sounder: u16) -> u16
    ensures { result ≡ cond failed sounder 0 }
{
    if failed { sounder } else { 0 }
}
