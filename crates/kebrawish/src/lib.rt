// The library's functions for C: judge and lay, each with its answer in a struct of five numbers.
#![tactic(auto)]

ghost use Rattle.std.specs.Prelude.{◌^◌, ◌<◌, ◌≡◌, length};
ghost use Rattle.verdict.specs.Verdict.{verdict};
ghost use Rattle.refusals.specs.Refusals.{rule_number};
ghost use Rattle.judging.specs.Judging.{verdict_of};
ghost use Rattle.laying.specs.Laying.{answered};
ghost use Rattle.sheets.specs.Laid.{answer, room_after};
ghost use Rattle.kebrawish.specs.Answers.{acceptance, refusal_of, judge_answer, lay_answer};
ghost use Rattle.kebrawish.specs.Says.{SmallVerdict, SmallAnswer};

use laying::Laid;
use refusals::Refusal;

// What both functions answer; the header's `kebrawish_answer`. The numbers that do not apply are 0.
#[repr(C)]
#[derive(Clone, Copy, PartialEq, Eq)]
pub struct KebrawishAnswer {
    pub rule: u32,
    pub place: u32,
    pub end: u32,
    pub length: u32,
    pub objects: u32,
}

// An acceptance for C.
fn accepted(length: usize, objects: usize) -> KebrawishAnswer
    requires { (length < 2 ^ 32) × (objects < 2 ^ 32) }
    ensures { result ≡ acceptance length objects }
{
    KebrawishAnswer {
        rule: 0,
        place: 0,
        end: 0,
        length: length as u32,
        objects: objects as u32,
    }
}

// A refusal for C.
fn refused(refusal: Refusal) -> KebrawishAnswer
    requires { (refusal.place < 2 ^ 32) × (refusal.end < 2 ^ 32) }
    ensures { result ≡ refusal_of (rule_number refusal.rule) refusal.place refusal.end }
{
    KebrawishAnswer {
        rule: u32::from(refusal.rule),
        place: refusal.place as u32,
        end: refusal.end as u32,
        length: 0,
        objects: 0,
    }
}

// A verdict for C.
fn judged(verdict: Result<usize, Refusal>) -> KebrawishAnswer
    requires { SmallVerdict (verdict_of verdict) }
    ensures { result ≡ judge_answer (verdict_of verdict) }
{
    match verdict {
        Ok(objects) => accepted(0, objects),
        Err(refusal) => refused(refusal),
    }
}

// An answer of lay for C.
fn laid(answer: Result<Laid, Refusal>) -> KebrawishAnswer
    requires { SmallAnswer (answered answer) }
    ensures { result ≡ lay_answer (answered answer) }
{
    match answer {
        Ok(laid) => accepted(laid.length, laid.objects),
        Err(refusal) => refused(refusal),
    }
}

// Judges a text.
#[unsafe(no_mangle)]
pub extern "C" fn kebrawish_judge(text: &[u8]) -> KebrawishAnswer
    ensures { result ≡ judge_answer (verdict text.now) }
{
    judged(judging::judge(text))
}

// Lays out a text in the lent sheet.
#[unsafe(no_mangle)]
pub extern "C" fn kebrawish_lay(text: &[u8], sheet: &mut [u8]) -> KebrawishAnswer
    ensures value { result ≡ lay_answer (answer text.now (length sheet.old)) }
    ensures sheet_after { sheet.new ≡ room_after text.now (length sheet.old) }
{
    laid(laying::lay(text, sheet))
}
