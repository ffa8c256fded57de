// Processor time.
use std::time::CpuClock;

// The microseconds of processor time so far; none where the clock fails.
pub fn now(rt: &impl CpuClock) -> Option<u64> {
    let time = rt.process_cpu_time().ok()?;
    u64::try_from(time.as_micros()).ok()
}

// The microseconds since then; 0 where the clock fails, which a run's total of them is to count as
// nothing.
pub fn since(rt: &impl CpuClock, from: Option<u64>) -> u64 {
    match (from, now(rt)) {
        (Some(before), Some(after)) => after.saturating_sub(before),
        _ => 0,
    }
}
