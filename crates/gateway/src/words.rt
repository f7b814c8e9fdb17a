//! The words that the program is called with.

ghost use Rattle.std.specs.Prelude.{◌≡◌, ◌≤◌, ◌+◌, ◌^◌, Some, None, MatchOption, IfSome, min};
ghost use Rattle.std.specs.List.{list_all};
ghost use Rattle.gateway.specs.Words as spec;

use text_types::Text;

/// The most bytes of input that are run, where no limit is given.
const DEFAULT_LIMIT: usize = 1_073_741_824;

/// The greatest limit, 2^40.
const GREATEST_LIMIT: usize = 1_099_511_627_776;

/// What the accepted words give.
#[derive(Drop)]
pub(crate) struct Names<'a> {
    pub(crate) schema: &'a Text,
    pub(crate) rules: &'a Text,
    pub(crate) limit: usize,
}

/// Reads the words. The queue's name isn't used yet.
pub(crate) fn read_words(words: &[Text]) -> Option<Names<'_>>
    ensures names { MatchOption result
        (spec.accepted words.now ≡ None)
        (λ names. spec.accepted words.now ≡ Some (record { schema = names.schema.now; rules = names.rules.now; limit = names.limit })) }
    ensures limit { IfSome result (λ names. names.limit ≡ spec.input_limit (spec.accepted words.now)) }
    ensures within { IfSome result (λ names. names.limit ≤ 2 ^ 40) }
{
    match words {
        [
            command,
            schema_option,
            schema,
            rules_option,
            rules,
            queue_option,
            _,
            more @ ..,
        ] if is_run(command, schema_option, rules_option, queue_option) => {
            named(schema, rules, limit_in(more))
        }
        _ => None,
    }
}

fn is_run(command: &Text, schema_option: &Text, rules_option: &Text, queue_option: &Text) -> bool
    ensures { result ≡ spec.is_run command.now schema_option.now rules_option.now queue_option.now }
{
    command.is("run")
        && schema_option.is("--schema")
        && rules_option.is("--rules")
        && queue_option.is("--queue")
}

fn named<'a>(schema: &'a Text, rules: &'a Text, limit: Option<usize>) -> Option<Names<'a>>
    ensures names { MatchOption result
        (spec.named schema.now rules.now limit ≡ None)
        (λ names. spec.named schema.now rules.now limit ≡ Some (record { schema = names.schema.now; rules = names.rules.now; limit = names.limit })) }
    ensures limit { IfSome result (λ names. limit ≡ Some names.limit) }
{
    match limit {
        Some(limit) => Some(Names {
            schema,
            rules,
            limit,
        }),
        None => None,
    }
}

/// The limit that the words behind the names give.
fn limit_in(words: &[Text]) -> Option<usize>
    ensures value { result ≡ spec.limit_in words.now }
    ensures within { IfSome result (λ limit. limit ≤ 2 ^ 40) }
{
    match words {
        [] => Some(DEFAULT_LIMIT),
        [option, number] if option.is("--max-input") => limit_of(number.as_bytes()),
        _ => None,
    }
}

/// The limit that a word spells.
fn limit_of(word: &[u8]) -> Option<usize>
    ensures value { result ≡ spec.limit_of word.now }
    ensures within { IfSome result (λ limit. limit ≤ 2 ^ 40) }
{
    if is_number(word) {
        limit_spelled(word)
    } else {
        None
    }
}

/// The limit that digits spell.
fn limit_spelled(digits: &[u8]) -> Option<usize>
    ensures value { result ≡ spec.limited (spec.number_of digits.now) }
    ensures within { IfSome result (λ limit. limit ≤ 2 ^ 40) }
{
    limited(number_up_to(digits))
}

fn limited(number: usize) -> Option<usize>
    ensures value { result ≡ spec.limited number }
    ensures within { IfSome result (λ limit. limit ≤ 2 ^ 40) }
{
    if 1 <= number && number <= GREATEST_LIMIT {
        Some(number)
    } else {
        None
    }
}

fn is_number(word: &[u8]) -> bool
    ensures { result ≡ spec.is_number word.now }
{
    !word.is_empty() && are_digits(word)
}

fn are_digits(bytes: &[u8]) -> bool
    ensures { result ≡ list_all spec.is_digit bytes.now }
{
    bytes.iter().all(|byte| is_digit(*byte))
}

fn is_digit(byte: u8) -> bool
    ensures { result ≡ spec.is_digit byte }
{
    48 <= byte && byte <= 57
}

/// The number that digits spell, or one above the greatest limit, where it is greater.
fn number_up_to(word: &[u8]) -> usize
    ensures { result ≡ min (spec.number_of word.now) (spec.greatest_limit + 1) }
{
    let mut number = 0;
    'digits: for digit in word {
        number = with_digit(number, *digit);
    }
    number
}

fn with_digit(number: usize, digit: u8) -> usize
    requires { number ≤ spec.greatest_limit + 1 }
    ensures { result ≡ min (spec.with_digit number digit) (spec.greatest_limit + 1) }
{
    (number * 10 + digit.saturating_sub(48) as usize).min(GREATEST_LIMIT + 1)
}
