//! The steps of a case, over disks of its own.
ghost use Rattle.m3_trials.specs.Disks.{NoneIsOut};

use crate::disks::TrialDisks;
use crate::steps::{begin, step};
use m3_outside::Disks;
use trial_lines::{Case, CaseErr, Player, Signs, Went, is_outcome};

// The steps of a case, over new disks.
fn play(
    case: Case<'_, '_>,
    signs: Signs,
    line: &mut usize,
    out: &mut String,
) -> Result<Went, CaseErr> {
    let mut disks = TrialDisks::new(case.alloc)?;
    let mut trial = begin(case.alloc)?;
    for part in case.steps {
        if is_outcome(part) {
            continue;
        }
        *line = part.number;
        let head = signs.put_into(case.alloc, part.head)?;
        let head = head.as_str();
        step(case, part, head, &mut trial, &mut disks, out)?;
    }
    Ok(if disks.faults() == 0 {
        Went::Whole
    } else {
        Went::Failed
    })
}

/// Runs of the program, over disks in memory.
pub struct Runs;

impl Player for Runs {
    fn play(
        case: Case<'_, '_>,
        signs: Signs,
        line: &mut usize,
        out: &mut String,
    ) -> Result<Went, CaseErr> {
        play(case, signs, line, out)
    }
}
