//! The words of the command line.
ghost use Rattle.std.specs.Prelude.{◌<◌, ◌≤◌, IfSome};
ghost use Rattle.crq_base.specs.Sizes.{IsTeam};

use crate::hold::Job;
use crq_base::MOST_WORKERS;

/// A number within these bounds, written in decimal digits alone, with no zero before them.
fn number(word: &str, least: u64, most: u64) -> Option<u64>
    ensures { IfSome result (λ n. (least ≤ n) × (n ≤ most)) }
{
    let digits = word.bytes().all(|byte| byte.is_ascii_digit());
    if !digits || (word.len() > 1 && word.starts_with('0')) {
        return None;
    }
    match word.parse::<u64>() {
        Ok(value) if least <= value && value <= most => Some(value),
        _ => None,
    }
}

/// The job for which the words THREADS PENDING HOLDS SEED STEP ask, where STEP is how many ticks the least time goes on
/// with each hold, on the average: an event is put back 1 to `2 * STEP * PENDING` ticks later.
pub fn job_of(words: &[String]) -> Option<Job>
    ensures { IfSome result (λ job. IsTeam job.threads × (0 < job.span)) }
{
    let [threads, pending, holds, seed, step] = words else {
        return None;
    };
    let pending = number(pending.as_str(), 1, 256)? as u32;
    let step = number(step.as_str(), 1, 1024)? as u32;
    Some(Job {
        threads: number(threads.as_str(), 1, u64::from(MOST_WORKERS))? as u32,
        pending,
        holds: number(holds.as_str(), 0, u64::MAX)?,
        seed: number(seed.as_str(), 0, u64::MAX)?,
        span: 2 * step * pending,
    })
}
