//! Words and numbers that a log goes on with, byte by byte: the first byte that can't stand ends the call.
ghost use Rattle.std.specs.Prelude.{◌≡◌, ℕ, List, [], ◌∷◌, ◌++◌, ◌+◌, ◌^◌, ◌<◌, true, false, None, Some, IfOk, IfSome};
ghost use Rattle.std.specs.Fmt.{decimal};
ghost use Rattle.cull_base.specs.declared.scene_types.Verdict.{Verdict};
ghost use Rattle.cull_report.specs.Text.{verdict_word};
ghost use Rattle.live_check.specs.Waiting.{Came, Fails, IsBehindNumber, IsDigit, NeverComes, waiting};

use crate::unread::Unread;
use cull_base::{Failed, Source, Verdict};

/// How many digits a count has at most: a tile's list has no more than 131,072 members.
const DIGITS: u32 = 6;

// Whether the log goes on with a byte, which is taken then.
#[inline(always)]
fn takes_byte<S: Source>(unread: &mut Unread, log: &mut S, byte: u8) -> Result<bool, Failed>
    ensures came { IfOk result (λ b. b ≡ true
        → Came (waiting unread.old (S.says log.old).left) (waiting unread.new (S.says log.new).left) (byte ∷ [])) }
    ensures other { IfOk result (λ b. b ≡ false
        → NeverComes (waiting unread.old (S.says log.old).left) (byte ∷ [])) }
    ensures stays { IfOk result (λ b. b ≡ false
        → waiting unread.new (S.says log.new).left ≡ waiting unread.old (S.says log.old).left) }
    ensures fails { Fails (S.says log.old) (S.says log.new) result }
{
    let Some(next) = unread.peek(log)? else {
        return Ok(false);
    };
    if next == byte {
        unread.skip();
        return Ok(true);
    }
    Ok(false)
}

/// Whether the log goes on with a text, which is taken then; else a front of it may be.
pub fn takes_text<S: Source>(unread: &mut Unread, log: &mut S, text: &[u8]) -> Result<bool, Failed>
    ensures came { IfOk result (λ b. b ≡ true
        → Came (waiting unread.old (S.says log.old).left) (waiting unread.new (S.says log.new).left) text.now) }
    ensures other { IfOk result (λ b. b ≡ false
        → NeverComes (waiting unread.old (S.says log.old).left) text.now) }
    ensures fails { Fails (S.says log.old) (S.says log.new) result }
{
    for place in 0..text.len() {
        if !takes_byte(unread, log, text[place])? {
            return Ok(false);
        }
    }
    Ok(true)
}

// The digit that a byte is, if it is one.
fn digit_of(byte: u8) -> Option<u32>
    ensures some { IfSome result (λ d. IsDigit byte × (byte ≡ 48 + d)) }
    ensures none { result ≡ None → IsDigit byte → ⊥ }
{
    if byte.is_ascii_digit() {
        Some(u32::from(byte - b'0'))
    } else {
        None
    }
}

// The next digit, which is taken, if the log goes on with one.
fn take_digit<S: Source>(unread: &mut Unread, log: &mut S) -> Result<Option<u32>, Failed>
    ensures came { IfOk result (λ o. IfSome o (λ d. (d < 10) × Came
        (waiting unread.old (S.says log.old).left) (waiting unread.new (S.says log.new).left) ((48 + d) ∷ []))) }
    ensures none { IfOk result (λ o. o ≡ None
        → (waiting unread.new (S.says log.new).left ≡ waiting unread.old (S.says log.old).left)
        × IfSome (waiting unread.old (S.says log.old).left) IsBehindNumber) }
    ensures fails { Fails (S.says log.old) (S.says log.new) result }
{
    let Some(next) = unread.peek(log)? else {
        return Ok(None);
    };
    let Some(digit) = digit_of(next) else {
        return Ok(None);
    };
    unread.skip();
    Ok(Some(digit))
}

/// The number of at most six digits, without zeros before it, that the log goes on with; it is taken. None where the
/// log goes on with no digit. Whatever follows is left, a digit too where it can't be the number's.
pub fn take_number<S: Source>(unread: &mut Unread, log: &mut S) -> Result<Option<u32>, Failed>
    ensures came { IfOk result (λ o. IfSome o (λ n. Came
        (waiting unread.old (S.says log.old).left) (waiting unread.new (S.says log.new).left) (decimal n))) }
    ensures only { IfOk result (λ o. IfSome (waiting unread.old (S.says log.old).left)
        (λ bytes. (k : ℕ) (more : List ℕ) → k < 10 ^ 6 → IsBehindNumber more
        → bytes ≡ decimal k ++ more → o ≡ Some k)) }
    ensures small { IfOk result (λ o. IfSome o (λ n. n < 10 ^ 6)) }
    ensures fails { Fails (S.says log.old) (S.says log.new) result }
{
    let Some(first) = take_digit(unread, log)? else {
        return Ok(None);
    };
    if first == 0 {
        return Ok(Some(0));
    }
    let mut number = first;
    for _place in 1..DIGITS {
        let Some(digit) = take_digit(unread, log)? else {
            return Ok(Some(number));
        };
        number = 10 * number + digit;
    }
    Ok(Some(number))
}

// The verdict if the log goes on with the text, which is then taken.
fn if_text<S: Source>(
    unread: &mut Unread,
    log: &mut S,
    text: &[u8],
    verdict: Verdict,
) -> Result<Option<Verdict>, Failed>
    ensures some { IfOk result (λ o. IfSome o (λ v. (v ≡ verdict)
        × Came (waiting unread.old (S.says log.old).left) (waiting unread.new (S.says log.new).left) text.now)) }
    ensures none { IfOk result (λ o. o ≡ None → NeverComes (waiting unread.old (S.says log.old).left) text.now) }
    ensures fails { Fails (S.says log.old) (S.says log.new) result }
{
    if takes_text(unread, log, text)? {
        Ok(Some(verdict))
    } else {
        Ok(None)
    }
}

// What the log goes on with behind the `o` of a verdict.
fn take_behind_o<S: Source>(unread: &mut Unread, log: &mut S) -> Result<Option<Verdict>, Failed>
    ensures came { IfOk result (λ o. IfSome o (λ v. (rest : List ℕ) × (verdict_word v ≡ 111 ∷ rest)
        × Came (waiting unread.old (S.says log.old).left) (waiting unread.new (S.says log.new).left) rest)) }
    ensures only { IfOk result (λ o. IfSome (waiting unread.old (S.says log.old).left)
        (λ bytes. (v : Verdict) (rest more : List ℕ) → verdict_word v ≡ 111 ∷ rest
        → bytes ≡ rest ++ more → o ≡ Some v)) }
    ensures fails { Fails (S.says log.old) (S.says log.new) result }
{
    if takes_byte(unread, log, b'c')? {
        return if_text(unread, log, b"cluded", Verdict::Occluded);
    }
    if_text(unread, log, b"utside", Verdict::Outside)
}

/// The verdict whose word the log goes on with; the word is taken. None where it goes on with no such word.
pub fn take_verdict<S: Source>(unread: &mut Unread, log: &mut S) -> Result<Option<Verdict>, Failed>
    ensures came { IfOk result (λ o. IfSome o (λ v. Came
        (waiting unread.old (S.says log.old).left) (waiting unread.new (S.says log.new).left) (verdict_word v))) }
    ensures only { IfOk result (λ o. IfSome (waiting unread.old (S.says log.old).left)
        (λ bytes. (v : Verdict) (more : List ℕ) → bytes ≡ verdict_word v ++ more → o ≡ Some v)) }
    ensures fails { Fails (S.says log.old) (S.says log.new) result }
{
    if takes_byte(unread, log, b'o')? {
        return take_behind_o(unread, log);
    }
    if_text(unread, log, b"visible", Verdict::Visible)
}
