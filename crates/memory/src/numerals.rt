// The corner of numerals: a number of 16 bits read from its decimal digits. The bytes are only read.

ghost use Rattle.std.specs.Prelude.{◌≡◌};
ghost use Rattle.memory.specs.Numeral.{numeral};

// The number that is written in decimal digits, of which there is at least one and nothing else.
pub fn read_number(digits: &[u8]) -> Option<u16>
    ensures { result ≡ numeral digits.now }
{
    if digits.is_empty() {
        return None;
    }
    let mut value = 0u16;
    for digit in digits {
        let last = char::from(*digit).to_digit(10)?;
        value = value.checked_mul(10)?.checked_add(last as u16)?;
    }
    Some(value)
}
