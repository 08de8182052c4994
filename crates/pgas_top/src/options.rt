//! Words as options: `--NAME VALUE` in two words, or `--NAME=VALUE` in one.
ghost use Rattle.std.specs.Prelude.{◌≡◌, ℕ, ◌<◌, ◌≤◌, List, ◌∷◌, length, drop, map, string_bytes, MatchOption};
ghost use Rattle.pgas_top.specs.Options.{IsNumberWord, options_of};

/// An option, and the place of the word behind it.
#[derive(Clone, Copy)]
struct OptionAt<'a> {
    name: &'a str,
    value: &'a str,
    next: usize,
}

/// The option that begins at the place: one word with an `=` in it, or two words. A last word with no
/// `=` has an empty value.
fn option_at(words: &[String], at: usize) -> OptionAt<'_>
    requires { at < length words.now }
    ensures option { options_of (drop at (map string_bytes words.now)) ≡ record { name = result.name.now; value = result.value.now } ∷ options_of (drop result.next (map string_bytes words.now)) }
    ensures forward { at < result.next }
    ensures within { result.next ≤ length words.now }
{
    let word = words[at].as_str();
    let next = at + 1;
    if let Some((name, value)) = word.split_once('=') {
        return OptionAt { name, value, next };
    }
    if next < words.len() {
        return OptionAt {
            name: word,
            value: words[next].as_str(),
            next: next + 1,
        };
    }
    OptionAt {
        name: word,
        value: "",
        next,
    }
}

/// How many options the words are.
pub fn count_options(words: &[String]) -> usize
    ensures { result ≡ length (options_of (map string_bytes words.now)) }
{
    let mut at = 0;
    let mut count = 0;
    while at < words.len() {
        at = option_at(words, at).next;
        count += 1;
    }
    count
}

/// The number that the word is, or `None` where it is none or above the greatest. A number is one or more
/// decimal digits without a sign; leading zeros are allowed.
pub fn number(word: &str, greatest: u64) -> Option<u64>
    ensures { MatchOption result
        ((n : ℕ) → IsNumberWord word.now n → n ≤ greatest → ⊥)
        (λ n. IsNumberWord word.now n × (n ≤ greatest)) }
{
    if word.starts_with('+') {
        return None;
    }
    let number = word.parse::<u64>().ok()?;
    if number > greatest {
        return None;
    }
    Some(number)
}
