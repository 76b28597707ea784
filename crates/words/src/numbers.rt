// Numbers as an order sheet writes them.
ghost use Rattle.std.specs.Prelude.{◌≡◌};
ghost use Rattle.words.specs.Numbers.{number_of};

/// The most digits that a number may have.
const MOST_DIGITS: usize = 10;

/// The number that the digits write: none unless there are 1 to 10 digits, and nothing else, and the number is at most 4,294,967,295.
pub fn number(digits: &[u8]) -> Option<u32>
    ensures { result ≡ number_of digits.now }
{
    if digits.is_empty() || digits.len() > MOST_DIGITS {
        return None;
    }
    // No fold: it has no bound from which to see that the number does not run over.
    let mut value = 0u64;
    for digit in digits {
        if !digit.is_ascii_digit() {
            return None;
        }
        value = value * 10 + u64::from(*digit - b'0');
    }
    u32::try_from(value).ok()
}
