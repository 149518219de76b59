//! Reads a field of a line as a number: 01, "Worked numbers", "Session program".

#![tactic(auto)]

ghost use Rattle.std.specs.Prelude.{◌≡◌, ◌≤◌, ◌==◌, position};
ghost use Rattle.numbers.specs.Steps.{word, digit_in, number_at};

// The number in a field, and where the field ends.
#[derive(Clone, Copy)]
pub struct Number {
    pub value: u64,
    pub end: usize,
}

// The field that begins at `at`, read as a number of 1 to `most` digits. Ten hex digits fit in 64 bits.
pub fn read(line: &[u8], at: usize, base: u64, most: usize) -> Option<Number>
    requires { (base ≤ 16) × (most ≤ 10) }
    ensures { result ≡ number_at base most line.now at }
{
    let field = word(line.get(at..)?);
    if field.is_empty() || most < field.len() {
        return None;
    }
    let mut value: u64 = 0;
    for byte in field {
        value = value * base + digit(*byte, base)?;
    }
    Some(Number {
        value,
        end: at + field.len(),
    })
}

// What stands before the first space.
fn word(rest: &[u8]) -> &[u8]
    ensures { result.now ≡ word rest.now }
{
    &rest[..space(rest).unwrap_or(rest.len())]
}

fn space(rest: &[u8]) -> Option<usize>
    ensures { result ≡ position (λ byte. byte == 32) rest.now }
{
    rest.iter().position(|byte| *byte == b' ')
}

// Hex digits of either case, below the base.
fn digit(byte: u8, base: u64) -> Option<u64>
    requires { base ≤ 16 }
    ensures { result ≡ digit_in base byte }
{
    let value = match byte {
        b'0'..=b'9' => byte - b'0',
        b'A'..=b'F' => byte - b'A' + 10,
        b'a'..=b'f' => byte - b'a' + 10,
        _ => return None,
    };
    Some(value as u64).filter(|digit| *digit < base)
}
