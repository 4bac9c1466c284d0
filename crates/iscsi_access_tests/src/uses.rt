//! What another program does with `iscsi_access`.

ghost use Rattle.std.specs.Prelude.{IfOk, IsTrue};
ghost use Rattle.iscsi_access.specs.Laws.{AnswersChallenge};

use iscsi_access::{Chap, Progress, Verdict};
use iscsi_chap::Algorithm;
use iscsi_text::Text;
use std::alloc::{AllocError, Global};

/// Whether an initiator of this name, which is to answer the challenge by this algorithm, proves by a
/// text that it knows a secret.
pub fn lets_in(
    alloc: Global,
    chap: &Chap,
    algorithm: Algorithm,
    initiator: &[u8],
    text: &Text<'_>,
) -> Result<bool, AllocError>
    ensures answers { IfOk result (λ passed. IsTrue passed →
        AnswersChallenge chap.now initiator.now text.now) }
{
    match chap.judge(alloc, Progress::Challenged(algorithm), initiator, text)? {
        Verdict::Goes {
            progress: Progress::Passed,
            ..
        } => Ok(true),
        _ => Ok(false),
    }
}
