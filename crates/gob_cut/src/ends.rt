//! Where a cut ends, found by looks at the source.
ghost use Rattle.std.specs.Prelude.{◌≡◌, ◌≢◌, ◌≤◌, ◌<◌, [], length, IfOk, IfSome, IsErr};
ghost use Rattle.gob_bytes.specs.Lines as lines;
ghost use Rattle.gob_device.specs.Causes.{HasCause};
ghost use Rattle.gob_device.specs.Supply.{bytes_at, bytes_from};
ghost use Rattle.gob_ledger.specs.Units.{cut_end};
ghost use Rattle.gob_cut.specs.Ends.{first_behind, last_between};

use gob_io::Source;
use gob_plan::Failed;
use gob_text::{first_line_end, last_line_end};

/// Where a cut from `lo` ends: at the last line end within `max` bytes, else at the first one behind them. Looks at the
/// last of those bytes first, so a cut mostly costs one look, whatever its length.
pub fn next_end<S: Source>(
    source: &mut S,
    part: &str,
    size: u64,
    lo: u64,
    max: u64,
    window: &mut [u8],
) -> Result<Option<u64>, Failed>
    requires room { 0 < length window.old }
    requires named { part.now ≢ [] }
    requires within { lo ≤ size }
    ensures end { IfOk result (λ end. IfSome (S.supply source.old) (λ s. size ≡ length (bytes_at s.held part.now)
        → end ≡ cut_end (lines.line_ends (bytes_at s.held part.now)) lo max)) }
    ensures inside { IfOk result (λ end. IfSome end (λ e. (lo < e) × (e ≤ size))) }
    ensures supply { S.supply source.new ≡ S.supply source.old }
    ensures cause { HasCause (S.faults source.old) (S.faults source.new) (IsErr result) }
    ensures planned { HasCause (S.plan_faults source.old) (S.plan_faults source.new) (IsErr result) }
{
    let limit = lo.saturating_add(max).min(size);
    let last = last_end(source, part, lo, limit, window)?;
    match last {
        Some(end) => Ok(Some(end)),
        None => {
            let first = first_end(source, part, limit, size, window)?;
            Ok(first)
        }
    }
}

// The last line end above `lo`, up to `hi`. Windows are looked at from the end on.
fn last_end<S: Source>(
    source: &mut S,
    part: &str,
    lo: u64,
    hi: u64,
    window: &mut [u8],
) -> Result<Option<u64>, Failed>
    requires room { 0 < length window.old }
    requires named { part.now ≢ [] }
    requires order { lo ≤ hi }
    ensures end { IfOk result (λ end. IfSome (S.supply source.old) (λ s. hi ≤ length (bytes_at s.held part.now)
        → end ≡ last_between (bytes_at s.held part.now) lo hi)) }
    ensures inside { IfOk result (λ end. IfSome end (λ e. (lo < e) × (e ≤ hi))) }
    ensures supply { S.supply source.new ≡ S.supply source.old }
    ensures cause { HasCause (S.faults source.old) (S.faults source.new) (IsErr result) }
    ensures planned { HasCause (S.plan_faults source.old) (S.plan_faults source.new) (IsErr result) }
{
    let mut end = hi;
    while end > lo {
        let len = (end - lo).min(window.len() as u64);
        let start = end - len;
        let found = look_for_last(source, part, start, &mut window[..len as usize])?;
        match found {
            Some(at) => return Ok(Some(start + at as u64)),
            None => end = start,
        }
    }
    Ok(None)
}

// The first line end above `lo`, up to the end of the partition. Where a look gives less than is asked for, the
// partition ends there.
fn first_end<S: Source>(
    source: &mut S,
    part: &str,
    lo: u64,
    size: u64,
    window: &mut [u8],
) -> Result<Option<u64>, Failed>
    requires room { 0 < length window.old }
    requires named { part.now ≢ [] }
    requires within { lo ≤ size }
    ensures end { IfOk result (λ end. IfSome (S.supply source.old) (λ s. size ≡ length (bytes_at s.held part.now)
        → end ≡ first_behind (bytes_at s.held part.now) lo)) }
    ensures inside { IfOk result (λ end. IfSome end (λ e. (lo < e) × (e ≤ size))) }
    ensures supply { S.supply source.new ≡ S.supply source.old }
    ensures cause { HasCause (S.faults source.old) (S.faults source.new) (IsErr result) }
    ensures planned { HasCause (S.plan_faults source.old) (S.plan_faults source.new) (IsErr result) }
{
    let mut at = lo;
    while at < size {
        let len = (size - at).min(window.len() as u64);
        let (seen, found) = look_for_first(source, part, at, &mut window[..len as usize])?;
        match found {
            Some(end) => return Ok(Some(at + end as u64)),
            None => {
                if (seen as u64) < len {
                    return Ok(None);
                }
                at += len;
            }
        }
    }
    Ok(None)
}

// The offset after the last line feed in a window's length of bytes.
fn look_for_last<S: Source>(
    source: &mut S,
    part: &str,
    at: u64,
    window: &mut [u8],
) -> Result<Option<usize>, Failed>
    requires named { part.now ≢ [] }
    ensures end { IfOk result (λ end. IfSome (S.supply source.old) (λ s. end
        ≡ lines.last_end (bytes_from s.held part.now at (length window.old)))) }
    ensures within { IfOk result (λ end. IfSome end (λ e. (0 < e) × (e ≤ length window.old))) }
    ensures supply { S.supply source.new ≡ S.supply source.old }
    ensures cause { HasCause (S.faults source.old) (S.faults source.new) (IsErr result) }
    ensures planned { HasCause (S.plan_faults source.old) (S.plan_faults source.new) (IsErr result) }
{
    let n = source.look(part, at, window)?;
    Ok(last_line_end(&window[..n]))
}

// How many bytes there are, at most a window's length, and the offset after the first line feed in them.
fn look_for_first<S: Source>(
    source: &mut S,
    part: &str,
    at: u64,
    window: &mut [u8],
) -> Result<(usize, Option<usize>), Failed>
    requires named { part.now ≢ [] }
    ensures seen { IfOk result (λ r. IfSome (S.supply source.old) (λ s. r.0
        ≡ length (bytes_from s.held part.now at (length window.old)))) }
    ensures end { IfOk result (λ r. IfSome (S.supply source.old) (λ s. r.1
        ≡ lines.first_end (bytes_from s.held part.now at (length window.old)))) }
    ensures within { IfOk result (λ r. IfSome r.1 (λ e. (0 < e) × (e ≤ length window.old))) }
    ensures supply { S.supply source.new ≡ S.supply source.old }
    ensures cause { HasCause (S.faults source.old) (S.faults source.new) (IsErr result) }
    ensures planned { HasCause (S.plan_faults source.old) (S.plan_faults source.new) (IsErr result) }
{
    let n = source.look(part, at, window)?;
    Ok((n, first_line_end(&window[..n])))
}
