//! What is kept of an earlier output.
ghost use Rattle.std.specs.Prelude.{◌≡◌, ◌≢◌, ◌⊎◌, ◌+◌, ◌<◌, ◌≤◌, ◌^◌, length, IfOk, IfErr, MatchOption, MatchResult};
ghost use Rattle.ntfe_model.specs.RunText.{Kept, head_text};
ghost use Rattle.ntfe_model.specs.Earlier.{IsKeptOf, after_head};
ghost use Rattle.class_text.specs.Forms.{form_of, layout_of};
ghost use Rattle.class_text.specs.Earlier.{kept_of, HasCause, IsShorter, IsBehind, IsDifferent, IsReadTo, IsRefusedAt};
ghost use Rattle.class_text.specs.declared.earlier_fault.EarlierFault.{EarlierFault};

use crate::earlier_fault::EarlierFault;
use crate::fields::cut_line;
use crate::form::TextForm;
use crate::head::write_head;
use crate::reader::Reader;
use crate::text_sink::TextSink;
use ntfe_model::{Choice, List};
use std::alloc::Global;

/// What is kept of an earlier output: the number of bytes, the last choice, and the number of blocks.
#[derive(Drop)]
pub struct Earlier {
    pub kept: u64,
    pub last: Option<Choice>,
    pub count: u64,
}

/// A place in a text: the number of the lines before it, and the bytes behind it.
#[derive(Clone, Copy, Drop)]
struct Behind<'a> {
    lines: u32,
    rest: &'a [u8],
}

/// The bytes of the run's head.
fn head_bytes(alloc: Global, form: &TextForm) -> Result<Vec<u8>, EarlierFault>
    ensures ok { IfOk result (λ v. v.items ≡ head_text form.now.pair (form_of form.now)) }
    ensures fault { IfErr result (λ e. e ≡ EarlierFault.Memory) }
{
    let mut sink = TextSink {
        bytes: Vec::new(alloc),
        faults: 0,
    };
    match write_head(alloc, form, &mut sink) {
        Ok(()) => Ok(sink.bytes),
        Err(_) => Err(EarlierFault::Memory),
    }
}

/// Compares the lines of a text with those of a head. `None` where they end before the head's.
fn skip_head<'a>(head: &[u8], bytes: &'a [u8]) -> Result<Option<Behind<'a>>, EarlierFault>
    requires { length bytes.now < 2 ^ 32 }
    ensures ok { IfOk result (λ b. MatchOption b (IsShorter head.now bytes.now) (λ p. IsBehind head.now bytes.now p.lines p.rest.now)) }
    ensures fault { IfErr result (IsDifferent head.now bytes.now) }
{
    let mut due = head;
    let mut behind = Behind {
        lines: 0,
        rest: bytes,
    };
    while let Some((expected, more)) = cut_line(due) {
        let Some((line, rest)) = cut_line(behind.rest) else {
            return Ok(None);
        };
        let lines = behind.lines + 1;
        if line != expected {
            return Err(EarlierFault::Head { line: lines });
        }
        due = more;
        behind = Behind { lines, rest };
    }
    Ok(Some(behind))
}

/// Reads the lines behind the head.
fn read_body(
    alloc: Global,
    form: &TextForm,
    head: u64,
    before: u32,
    bytes: &[u8],
) -> Result<Reader, EarlierFault>
    requires head { head < 2 ^ 63 }
    requires few { before + length bytes.now < 2 ^ 32 }
    ensures ok { IfOk result (λ r. IsReadTo (layout_of form.now) head bytes.now r) }
    ensures fault { IfErr result (IsRefusedAt (layout_of form.now) head bytes.now before) }
{
    let mut reader = Reader::new(alloc, head);
    let mut lines = before;
    let mut rest = bytes;
    while let Some((line, more)) = cut_line(rest) {
        lines += 1;
        if !reader.accept(form, line)? {
            return Err(EarlierFault::Body { line: lines });
        }
        rest = more;
    }
    Ok(reader)
}

/// Reads what an earlier run wrote.
fn read_text(alloc: Global, form: &TextForm, bytes: &[u8]) -> Result<Earlier, EarlierFault>
    requires { length bytes.now < 2 ^ 32 }
    ensures ok { IfOk result (λ e. IsKeptOf (layout_of form.now) bytes.now (kept_of e)) }
    ensures fault { IfErr result (HasCause (layout_of form.now) bytes.now) }
{
    let head = head_bytes(alloc, form)?;
    let Some(behind) = skip_head(&head, bytes)? else {
        return Ok(Earlier {
            kept: 0,
            last: None,
            count: 0,
        });
    };
    let reader = read_body(alloc, form, head.len() as u64, behind.lines, behind.rest)?;
    Ok(reader.into_earlier())
}

/// Reads what an earlier run wrote, of at most 4,294,967,295 bytes, cut anywhere. Kept is the whole head of this
/// run with the whole blocks behind it; a last line is never kept. What follows the last line feed is a cut tail and no fault.
///
/// # Errors
///
/// `Head` where a whole line in the head's place differs from this run's, with the first such line; `Body` where the
/// head's lines are right, with the first whole line behind them that is not allowed in its place.
pub fn read_earlier(alloc: Global, form: &TextForm, bytes: &[u8]) -> Result<Earlier, EarlierFault>
    requires { length bytes.now < 2 ^ 32 }
    ensures ok { IfOk result (λ e. IsKeptOf (layout_of form.now) bytes.now (kept_of e)) }
    ensures only { (kept : Kept) → IsKeptOf (layout_of form.now) bytes.now kept → MatchResult result (λ e. kept_of e ≡ kept) (λ f. f ≡ EarlierFault.Memory) }
    ensures fault { IfErr result (HasCause (layout_of form.now) bytes.now) }
    ensures exact { (fault : EarlierFault) → fault ≢ EarlierFault.Memory → HasCause (layout_of form.now) bytes.now fault → MatchResult result (λ _. ⊥) (λ f. (f ≡ fault) ⊎ (f ≡ EarlierFault.Memory)) }
{
    read_text(alloc, form, bytes)
}
