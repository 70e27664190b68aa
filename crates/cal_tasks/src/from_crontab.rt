//! Timers that were made of entries of crontabs.

ghost use Rattle.std.specs.Prelude.{◌≡◌, IfOk, map, string_bytes};
ghost use Rattle.cal_timer.specs.rules.TimerView.{shown};
ghost use Rattle.cal_tasks.specs.rules.FromCrontab.{expression_texts, is_from_crontab, listed};

use cal_load::LoadedTimer;
use cal_timer::TimerLine;
use std::alloc::{AllocError, Global};

/// Returns whether a timer was made of texts rather than files, and at least one of the texts is an entry of a crontab.
pub(crate) fn is_from_crontab(alloc: Global, timer: &LoadedTimer) -> Result<bool, AllocError>
    ensures { IfOk result (λ is. is ≡ is_from_crontab timer.now) }
{
    if !timer.files.texts.is_empty() {
        return Ok(false);
    }
    let texts = expression_texts(alloc, timer)?;
    let name = listed(alloc, texts.as_slice())?;
    Ok(name.as_str() != timer.name.as_str())
}

/// Returns the texts of a timer's expressions. Those of an entry of a crontab are in normal form.
pub(crate) fn expression_texts(alloc: Global, timer: &LoadedTimer) -> Result<Vec<&str>, AllocError>
    ensures { IfOk result (λ texts. map (λ text. text.now) texts.items ≡ expression_texts timer.now) }
{
    texts_of(alloc, timer.lines())
}

fn texts_of(alloc: Global, lines: &[TimerLine]) -> Result<Vec<&str>, AllocError>
    ensures { IfOk result (λ texts. map (λ text. text.now) texts.items ≡ map (λ entry. entry.text) (map shown lines.now)) }
{
    let mut texts = Vec::new(alloc);
    for line in lines {
        texts.push(line.text.as_str())?;
    }
    Ok(texts)
}

/// Returns the texts, separated by commas.
#[tactic(auto, using(crate::proofs::CrontabLemmas::listed_is))]
fn listed(alloc: Global, texts: &[&str]) -> Result<String, AllocError>
    ensures { IfOk result (λ list. string_bytes list ≡ listed (map (λ text. text.now) texts.now)) }
{
    texts.join(alloc, ", ")
}
