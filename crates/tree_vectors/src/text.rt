// Decimal numbers in text.
ghost use Rattle.std.specs.Prelude.{◌≤◌, length};

// The number of some digits, the low 32 bits of it.
fn value(digits: &[u8]) -> u32 {
    digits.iter().fold(
        0u32,
        |total, digit| total.wrapping_mul(10).wrapping_add((digit % 48) as u32),
    )
}

// The numbers of a text, as many as there is room for; whatever is no digit parts them.
pub fn numbers(s: &[u8], out: &mut [u32]) -> usize
    ensures { result ≤ length out.new }
{
    let given = s
        .split(|b| !b.is_ascii_digit())
        .filter(|digits| !digits.is_empty());
    let mut count: usize = 0;
    for digits in given {
        let Some(word) = out.get_mut(count) else {
            break;
        };
        *word = value(digits);
        count += 1;
    }
    count
}
