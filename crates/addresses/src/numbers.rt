// Decimal numbers as text. Assumes nothing.
ghost use Rattle.std.specs.Prelude.{◌≡◌, ◌≤◌, IfSome};
ghost use Rattle.addresses.specs.Numbers.{digit_added, number_read};

// A number with one digit more, where that byte is one and the number doesn't pass the limit.
fn with_digit(number: u32, digit: u8, limit: u32) -> Option<u32>
    ensures { result ≡ digit_added limit number digit }
{
    let digit = char::from(digit).to_digit(10)?;
    let more = number.checked_mul(10)?.checked_add(digit)?;
    (more <= limit).then_some(more)
}

/// The number that a text is in decimal digits, with no zero in front of another digit. None where
/// it is no such number, or one above the limit. It changes nothing.
#[tactic(auto, using(crate::proofs::Digits::unfit_none, crate::proofs::Digits::fit_is, crate::proofs::Digits::digit_next, crate::proofs::Digits::digit_end))]
pub fn read_number(text: &[u8], limit: u32) -> Option<u32>
    ensures value { result ≡ number_read limit text.now }
    ensures within { IfSome result (λ n. n ≤ limit) }
{
    if matches!(text, [] | [b'0', _, ..]) {
        return None;
    }
    // A `for` with `?`: `try_fold` is no plainer, and needs a lemma as long as the loop's proof.
    let mut number = 0;
    for digit in text {
        number = with_digit(number, *digit, limit)?;
    }
    Some(number)
}
