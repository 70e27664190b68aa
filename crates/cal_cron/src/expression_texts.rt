//! The expressions of an entry as texts.

ghost use Rattle.std.specs.Prelude.{◌≡◌, IfOk, map, string_bytes};
ghost use Rattle.cal_cron.specs.computed.Translation.{shown_exprs};
ghost use Rattle.cal_cron.specs.rules.CronMatch.{expression_texts};

use crate::CronExprs;
use cal_spec::normal_text;
use std::alloc::{AllocError, Global};

impl CronExprs {
    /// Returns the expressions in normal form. Fails only if allocation fails.
    pub fn texts(&self, alloc: Global) -> Result<Vec<String>, AllocError>
        ensures { IfOk result (λ texts. map string_bytes texts.items ≡ expression_texts (shown_exprs self.now)) }
    {
        let mut texts = Vec::new(alloc);
        texts.push(normal_text(alloc, &self.first)?)?;
        if let Some(other) = &self.other {
            texts.push(normal_text(alloc, other)?)?;
        }
        Ok(texts)
    }
}
