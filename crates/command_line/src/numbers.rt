// Numbers that words name.
ghost use Rattle.std.specs.Prelude.{◌≡◌, ◌≤◌, IfSome};
ghost use Rattle.command_line.specs.Words.{number_of, number_by};

use itoa::Buffer;

// The number that a word names, if it is within its limits.
pub(crate) fn number_named(word: &str, least: u32, most: u32) -> Option<u32>
    ensures number { result ≡ number_of least most word.now }
    ensures least { IfSome result (λ n. least ≤ n) }
    ensures most { IfSome result (λ n. n ≤ most) }
{
    match word.parse::<u32>() {
        Ok(number) => number_of_digits(word, number, least, most),
        Err(_) => None,
    }
}

// A number, if its digits are the word and it is within its limits.
fn number_of_digits(word: &str, number: u32, least: u32, most: u32) -> Option<u32>
    ensures number { result ≡ number_by least most word.now number }
    ensures least { IfSome result (λ n. least ≤ n) }
    ensures most { IfSome result (λ n. n ≤ most) }
{
    let mut digits = Buffer::new();
    if digits.format(number) == word && least <= number && number <= most {
        Some(number)
    } else {
        None
    }
}
