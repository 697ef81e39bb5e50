//! What of logs is judged: all, or with `--since-seccomp` the calls that are made under a filter.
ghost use Rattle.std.specs.Prelude.{◌≡◌, ℕ, IfOk, IfErr, length, map, string_bytes, true, vec_len};
ghost use Rattle.sk_ask.specs.Counts.{CountsReads};
ghost use Rattle.sk_ask.specs.Since.{AreJudged, IsJudged, IsUnjudged, IsUnjudgedOf};

use crate::complaint::about;
use crate::trouble::Trouble;
use sk_names::Architecture;
use sk_replay::since_attached;
use std::alloc::Global;

/// What is said of a log in which no line attaches a filter.
pub const NO_FILTER: &str =
    "holds no call that attaches a filter: expected seccomp or prctl in lines as strace -f writes them";

/// What is judged of the log with this name, which a process of this architecture made.
pub(crate) fn judged(
    alloc: Global,
    since: bool,
    architecture: Architecture,
    name: &str,
    log: Vec<u8>,
) -> Result<Vec<u8>, Trouble>
    ensures judged { IfOk result (λ text. IsJudged since architecture log.items text.items) }
    ensures unjudged { IfErr result (IsUnjudged since architecture name.now log.items) }
    ensures unread { (reads : ℕ) → CountsReads result reads reads }
{
    if since {
        under_filter(alloc, architecture, name, &log)
    } else {
        Ok(log)
    }
}

/// The same of the logs with these names.
pub(crate) fn all_judged(
    alloc: Global,
    since: bool,
    architecture: Architecture,
    names: &[String],
    logs: Vec<Vec<u8>>,
) -> Result<Vec<Vec<u8>>, Trouble>
    requires each { vec_len logs ≡ length names.now }
    ensures judged { IfOk result (λ texts. AreJudged since architecture (map (λ log. log.items) logs.items) (map (λ text. text.items) texts.items)) }
    ensures unjudged { IfErr result (IsUnjudgedOf since architecture (map string_bytes names.now) (map (λ log. log.items) logs.items)) }
    ensures unread { (reads : ℕ) → CountsReads result reads reads }
{
    if since {
        all_under_filter(alloc, architecture, names, &logs)
    } else {
        Ok(logs)
    }
}

fn under_filter(
    alloc: Global,
    architecture: Architecture,
    name: &str,
    log: &[u8],
) -> Result<Vec<u8>, Trouble>
    ensures judged { IfOk result (λ text. IsJudged true architecture log.now text.items) }
    ensures unjudged { IfErr result (IsUnjudged true architecture name.now log.now) }
    ensures unread { (reads : ℕ) → CountsReads result reads reads }
{
    match since_attached(alloc, architecture, log)? {
        Some(text) => Ok(text),
        None => Err(Trouble::Refused(about(alloc, name, NO_FILTER)?)),
    }
}

fn all_under_filter(
    alloc: Global,
    architecture: Architecture,
    names: &[String],
    logs: &[Vec<u8>],
) -> Result<Vec<Vec<u8>>, Trouble>
    requires each { length logs.now ≡ length names.now }
    ensures judged { IfOk result (λ texts. AreJudged true architecture (map (λ log. log.items) logs.now) (map (λ text. text.items) texts.items)) }
    ensures unjudged { IfErr result (IsUnjudgedOf true architecture (map string_bytes names.now) (map (λ log. log.items) logs.now)) }
    ensures unread { (reads : ℕ) → CountsReads result reads reads }
{
    let mut texts = Vec::new(alloc);
    let mut rest = names;
    let mut left = logs;
    while let Some((name, other_names)) = rest.split_first() {
        let Some((log, other_logs)) = left.split_first() else {
            break;
        };
        let text = under_filter(alloc, architecture, name.as_str(), log)?;
        texts.push(text)?;
        rest = other_names;
        left = other_logs;
    }
    Ok(texts)
}
